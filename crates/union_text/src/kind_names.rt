// The names of the kinds.
ghost use Rattle.std.specs.Prelude.{◌≡◌, ◌≤◌, length};
ghost use Rattle.decimal.specs.Text.{output};
ghost use Rattle.union_names.specs.Names.{same_name};
ghost use Rattle.union_text.specs.KindNames.{kind_name, kind_named};

use array_columns::Kind;

// The kinds, by number.
const KINDS: [Kind; 10] = [
    Kind::Int8,
    Kind::Int16,
    Kind::Int32,
    Kind::Int64,
    Kind::UInt8,
    Kind::UInt16,
    Kind::UInt32,
    Kind::UInt64,
    Kind::Float32,
    Kind::Float64,
];

// A kind's name.
pub fn kind_name(kind: Kind) -> &'static str
    ensures { result.now ≡ kind_name kind }
{
    match kind {
        Kind::Int8 => "Int8",
        Kind::Int16 => "Int16",
        Kind::Int32 => "Int32",
        Kind::Int64 => "Int64",
        Kind::UInt8 => "UInt8",
        Kind::UInt16 => "UInt16",
        Kind::UInt32 => "UInt32",
        Kind::UInt64 => "UInt64",
        Kind::Float32 => "Float32",
        Kind::Float64 => "Float64",
    }
}

// Puts a kind's name at the start of `out` and keeps the bytes after it; answers its length.
pub fn put_kind_name(kind: Kind, out: &mut [u8]) -> usize
    requires { 7 ≤ length out.old }
    ensures { record { size = result; bytes = out.new } ≡ output (kind_name kind) out.old }
{
    let name = kind_name(kind).as_bytes();
    out[..name.len()].copy_from_slice(name);
    name.len()
}

// Whether a text is a kind's name.
#[tactic(auto, using(crate::proofs::KindNameLaws::same_bytes))]
fn is_named(kind: Kind, text: &[u8]) -> bool
    ensures { result ≡ same_name text.now (kind_name kind) }
{
    text == kind_name(kind).as_bytes()
}

// The kind that a text names.
#[tactic(auto, unfolding(crate::specs::KindNames::kind_named))]
pub fn kind_named(text: &[u8]) -> Option<Kind>
    ensures { result ≡ kind_named text.now }
{
    KINDS.iter().copied().find(|kind| is_named(*kind, text))
}

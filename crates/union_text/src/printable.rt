// Names as they are printed: control bytes as question marks.
ghost use Rattle.std.specs.Prelude.{◌≡◌, map, ◌≤◌, length};
ghost use Rattle.decimal.specs.Text.{output};
ghost use Rattle.union_text.specs.Printable.{printed};

// A byte of a name as it is printed.
#[tactic(auto, unfolding(crate::specs::Printable::printed))]
pub fn printable(b: u8) -> u8
    ensures { result ≡ printed b }
{
    if b.is_ascii_control() { b'?' } else { b }
}

// Puts a name at the start of `out`, as it is printed, and keeps the bytes after it; answers its length.
pub fn put_printable(name: &[u8], out: &mut [u8]) -> usize
    requires { length name.now ≤ length out.old }
    ensures value { result ≡ length name.now }
    ensures text { record { size = result; bytes = out.new } ≡ output (map printed name.now) out.old }
{
    let part = &mut out[..name.len()];
    part.copy_from_slice(name);
    for b in part.iter_mut() {
        *b = printable(*b);
    }
    name.len()
}

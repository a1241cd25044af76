// Names: 32 bytes to a column, compared by bytes.
ghost use Rattle.std.specs.Prelude.{◌≡◌, ◌+◌, ◌≤◌, length};
ghost use Rattle.std.proofs.Math.Seq.{paste};
ghost use Rattle.union_names.specs.Names.{same_name};

// Whether two names are the same. Names often begin alike, so the last byte is compared first.
#[tactic(auto, using(crate::proofs::Same::same_lasts))]
pub fn same_name(x: &[u8], y: &[u8]) -> bool
    ensures { result ≡ same_name x.now y.now }
{
    match (x.split_last(), y.split_last()) {
        (Some((a, front)), Some((b, other))) => a == b && front == other,
        (None, None) => true,
        _ => false,
    }
}

// Writes a name's bytes, from `at` on.
pub fn put_name(names: &mut [u8], at: usize, name: &[u8])
    requires { at + length name.now ≤ length names.old }
    ensures { names.new ≡ paste names.old at name.now (length name.now) }
{
    names[at..at + name.len()].copy_from_slice(name);
}

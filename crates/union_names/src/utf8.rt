// UTF-8, as RFC 3629 has it.
ghost use Rattle.std.specs.Prelude.{◌≡◌};
ghost use Rattle.union_names.specs.Names.{question17};

use std::str;

// Question 17: at most 32 bytes of UTF-8.
#[tactic(auto, using(crate::proofs::Text::utf8_Decides), unfolding(crate::specs::Names::question17))]
pub fn name_fits(name: &[u8]) -> bool
    ensures { result ≡ question17 name.now }
{
    name.len() <= 32 && str::from_utf8(name).is_ok()
}

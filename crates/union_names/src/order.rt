// The order of a finished array's columns: by the bytes of their names, of equal names the lower id first.
ghost use Rattle.std.specs.Prelude.{◌≡◌, ◌<◌, ◌≤◌, length, All};
ghost use Rattle.std.specs.List.{prefix_len};
ghost use Rattle.union_names.specs.Names.{name_up_to};
ghost use Rattle.union_names.specs.Order.{name_by, goes_before, order_of, NamesHeld};

// Whether the first name is at most the second. Most names differ early, so the first bytes are compared one by one; `cmp` passes equal
// bytes in groups, and costs more to begin.
#[tactic(auto, using(crate::proofs::NameOrder::up_to_is, std::proofs::lemmas::Bool::Decides::nat_tests))]
fn up_to(mut x: &[u8], mut y: &[u8]) -> bool
    ensures { result ≡ name_up_to x.now y.now }
{
    for _byte in 0..4 {
        match (x.split_first(), y.split_first()) {
            (Some((a, xs)), Some((b, ys))) => {
                if a != b {
                    return a < b;
                }
                x = xs;
                y = ys;
            }
            (None, _) => return true,
            (_, None) => return false,
        }
    }
    x.cmp(&y).is_le()
}

// The names of some columns: 32 bytes lent to each, of which `sizes` tells how many are its name's. A column is asked for by its id, so
// each call says that there is one.
#[derive(Drop)]
struct Names<'a> {
    bytes: &'a [u8],
    sizes: &'a [u8],
    ghost held: { NamesHeld bytes.now sizes.now (length sizes.now) },
}

impl Names<'_> {
    // The name of column k.
    fn name(&self, k: usize) -> &[u8]
        requires { k < length self.now.sizes.now }
        ensures { result.now ≡ name_by self.now.bytes.now self.now.sizes.now k }
    {
        let start = 32 * k;
        let size = self.sizes[k] as usize;
        &self.bytes[start..start + size]
    }

    // Where column k goes among the ids listed: behind those whose names are at most its own.
    fn place_of(&self, listed: &[u8], k: usize) -> usize
        requires k_in { k < length self.now.sizes.now }
        requires listed_in { All (λ j. j < length self.now.sizes.now) listed.now }
        ensures place { result ≡ prefix_len (goes_before (name_by self.now.bytes.now self.now.sizes.now) k) listed.now }
        ensures at_most { result ≤ length listed.now }
    {
        let name = self.name(k);
        listed
            .iter()
            .take_while(|j| up_to(self.name(**j as usize), name))
            .count()
    }
}

// The ids of the columns in order by name, then zeros: 128 at most, and there is no heap.
#[tactic(auto, using(crate::proofs::Listing::order_none, crate::proofs::Listing::order_below, crate::proofs::Listing::order_more))]
pub fn order_of(names: &[u8], sizes: &[u8]) -> [u8; 128]
    requires { NamesHeld names.now sizes.now (length sizes.now) }
    ensures { result ≡ order_of names.now sizes.now (length sizes.now) }
{
    let columns = Names {
        bytes: names,
        sizes,
    };
    let mut order = [0u8; 128];
    // The id k is what is put in.
    for k in 0..sizes.len() {
        let place = columns.place_of(&order[..k], k);
        order.copy_within(place..k, place + 1);
        order[place] = k as u8;
    }
    order
}

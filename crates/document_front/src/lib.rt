// Load of a document of which the first bytes are at hand.
#![tactic(auto)]

ghost use Rattle.std.specs.Prelude.{false, ◌≡◌, Ok, List, ℕ, ◌≤◌, length, take};
ghost use Rattle.machine.specs.Broken.{broken};
ghost use Rattle.machine.specs.Load.{load};
ghost use Rattle.document.specs.Loading.{load_result};

use document::loading::load;
use machine::Loaded;

// Load's answer depends on no byte of a document after so many (`Front.deciding_bytes`).
pub const DECIDING_BYTES: usize = 5897;

// Load of a document of any length, whose first bytes are in `front`: as many as there is room for, or all that it has, are filled.
// The whole array is lent, and not its filled part: where it is not full the document ends.
pub fn load_front(front: &[u8; DECIDING_BYTES], filled: usize) -> Loaded
    requires { filled ≤ length front.now }
    ensures loaded { (document : List ℕ)
        → take filled front.now ≡ take (length front.now) document
        → load_result result ≡ load document }
    ensures unbroken { result.answer ≡ Ok tt → broken result.session ≡ false }
{
    load(&front[..filled])
}

// The rule of the offices (6): each stands at a place.
ghost use Rattle.std.specs.Prelude.{◌≡◌};
ghost use Rattle.paper.specs.Map.{Map};
ghost use Rattle.paper.specs.Sheet.{offices_in};
ghost use Rattle.paper.specs.Layout.{offices_hold};

use crate::word;
use paper::sizes::WORD_BYTES;

// Whether each office of the list, a slice of its own, stands at one of the places.
pub fn offices_hold(list: &[u8], places: usize) -> bool
    ensures { (m : Map) → m.places ≡ places → result ≡ offices_hold m (offices_in list.now) }
{
    let offices = list.len() / WORD_BYTES;
    (0..offices).all(|i| (word(list, i) as usize) < places)
}

// The rule of the places (3): each lies on the grid and has a gazetteer number, and no two share a cell or a number.
ghost use Rattle.std.specs.Prelude.{◌≡◌, true, ℕ, ◌+◌, ◌*◌, ◌≤◌, length};
ghost use Rattle.paper.specs.Sizes.{place_words};
ghost use Rattle.paper.specs.Test.{every};
ghost use Rattle.paper.specs.Map.{Map};
ghost use Rattle.paper.specs.Sheet.{map_of};
ghost use Rattle.paper.specs.Layout.{place_holds, places_hold};
ghost use Rattle.sheet.specs.Records.{LiesAt, Taken};

use crate::ground::Parts;
use crate::word;
use differ::all_differ;
use paper::Cell;
use paper::sizes::{GRID_SIDE, MOST_PLACES, PLACE_WORDS};

// Where the place v lies.
#[tactic(auto, unfolding(paper::specs::Sheet::map_of))]
pub fn cell_of(sheet: &[u8], v: usize) -> Cell
    requires { 4 * (1 + place_words * v + place_words) ≤ length sheet.now }
    ensures { LiesAt (map_of sheet.now) v result }
{
    let at = 1 + PLACE_WORDS * v;
    Cell {
        x: word(sheet, at),
        y: word(sheet, at + 1),
    }
}

// The gazetteer number of the place v.
#[tactic(auto, unfolding(paper::specs::Sheet::map_of))]
pub fn gazetteer_of(sheet: &[u8], v: usize) -> u32
    requires { 4 * (1 + place_words * v + place_words) ≤ length sheet.now }
    ensures { result ≡ (map_of sheet.now).gazetteer v }
{
    word(sheet, 3 + PLACE_WORDS * v)
}

// What a place has to keep by itself.
#[tactic(auto, unfolding(paper::specs::Layout::place_holds))]
fn place_holds(cell: Cell, gazetteer: u32) -> bool
    ensures { (m : Map) (i : ℕ) → LiesAt m i cell → gazetteer ≡ m.gazetteer i → result ≡ place_holds m i }
{
    cell.x < GRID_SIDE && cell.y < GRID_SIDE && gazetteer != 0
}

// Whether each place holds; if so, the slices have the cell of each as one number, and its gazetteer number.
// By index: a place, a stage and a block are words of the bytes, and there is no slice of records to go through.
fn take_places(parts: &Parts, cells: &mut [u32], numbers: &mut [u32]) -> bool
    requires { (parts.now.counts.places ≤ length cells.old) × (parts.now.counts.places ≤ length numbers.old) }
    ensures value { result ≡ every parts.now.counts.places (place_holds (map_of parts.now.bytes.now)) }
    ensures taken { result ≡ true → Taken (map_of parts.now.bytes.now) parts.now.counts.places cells.new numbers.new }
{
    for i in 0..parts.counts.places {
        let cell = cell_of(parts.bytes, i);
        let gazetteer = gazetteer_of(parts.bytes, i);
        if !place_holds(cell, gazetteer) {
            return false;
        }
        cells[i] = cell.x * GRID_SIDE + cell.y;
        numbers[i] = gazetteer;
    }
    true
}

// Whether each place holds, no two share a cell, and no two a gazetteer number.
pub fn places_hold(parts: &Parts) -> bool
    ensures { result ≡ places_hold (map_of parts.now.bytes.now) }
{
    let places = parts.counts.places;
    let mut cells = [0u32; MOST_PLACES];
    let mut numbers = [0u32; MOST_PLACES];
    if !take_places(parts, &mut cells, &mut numbers) {
        return false;
    }
    all_differ(&cells[..places]) && all_differ(&numbers[..places])
}

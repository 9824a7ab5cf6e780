// The check, column by column: the road distances to each place, and the pairs that it ends. Who keeps the table stores each column as it comes.
ghost use Rattle.std.specs.Prelude.{◌≡◌, ℕ, ◌*◌, ◌≤◌, ◌<◌, length, IfOk, IfSome};
ghost use Rattle.paper.specs.Refusal.{numbered, number};
ghost use Rattle.paper.specs.declared.refusal.Refusal.TheVariants.{UselessBlock};
ghost use Rattle.paper.specs.Map.{Map};
ghost use Rattle.paper.specs.Sheet.{map_of};
ghost use Rattle.truth.specs.Table.{CheckedIn};
ghost use Rattle.truth.specs.Faults.{found_by, found_below, number_of_check};
ghost use Rattle.truth.specs.Roads.{OnRoads, OnSurvey, SomeSurvey, Reached};
ghost use Rattle.truth.specs.Columns.{ColumnIs, ColumnByChart};

use crate::known::Survey;
use crate::pairs::{Fault, column_fault};
use crate::slices::all_marked;
use crate::table::Table;
use paper::Refusal;
use paper::sizes::{MOST_BLOCKS, MOST_PLACES};
use roads::{FAR, Roads};

// Whether v can be reached from every place; if so, the column holds the road distances to v.
fn is_reached(roads: &Roads, v: usize, column: &mut [u32]) -> bool
    requires { (v < roads.now.places) × (roads.now.places ≤ length column.old) }
    ensures { (m : Map) → OnRoads roads.now m → Reached m roads.now.places v column.new result }
{
    roads.towards(v, column);
    !column[..roads.places].contains(&FAR)
}

// One column of the table, on any map that was surveyed: the road distances to v, and the first faulty pair with a place below `below`; or 11. Where no map
// was surveyed, the column is as `towards` leaves it, and the pairs follow from it by the chart.
pub fn judge_column(
    survey: &Survey,
    v: usize,
    column: &mut [u32],
    marks: &mut [u8],
    below: usize,
) -> Result<Option<Fault>, Refusal>
    requires { (below ≤ survey.now.roads.places) × (v < survey.now.roads.places) × (survey.now.roads.places ≤ length column.old) × (survey.now.chart.ground.counts.blocks ≤ length marks.old) }
    ensures within { IfOk result (λ found. IfSome found (λ f. f.place < below)) }
    ensures column { (m : Map) → OnSurvey survey.now m → ColumnIs m (map_of survey.now.chart.ground.bytes.now) survey.now.roads.places v below marks.old column.new marks.new result }
    ensures by_chart { ColumnByChart survey.now.chart v below marks.old column.new marks.new result }
{
    if !is_reached(&survey.roads, v, column) {
        return Err(Refusal::CutOff);
    }
    Ok(column_fault(&survey.chart, column, v, marks, below))
}

// The same of a survey that some map has. It promises no more, but asks for the map without which the column and 11 are open: so what it gives is pinned.
pub fn judge_column_of_map(
    survey: &Survey,
    v: usize,
    column: &mut [u32],
    marks: &mut [u8],
    below: usize,
) -> Result<Option<Fault>, Refusal>
    requires surveyed { SomeSurvey survey.now }
    requires below_le_places { (below ≤ survey.now.roads.places) × (v < survey.now.roads.places) × (survey.now.roads.places ≤ length column.old) × (survey.now.chart.ground.counts.blocks ≤ length marks.old) }
    ensures within { IfOk result (λ found. IfSome found (λ f. f.place < below)) }
    ensures column { (m : Map) → OnSurvey survey.now m → ColumnIs m (map_of survey.now.chart.ground.bytes.now) survey.now.roads.places v below marks.old column.new marks.new result }
    ensures by_chart { ColumnByChart survey.now.chart v below marks.old column.new marks.new result }
{
    judge_column(survey, v, column, marks, below)
}

// Where the pairs that are still looked for end: at the first faulty one, or past all places.
fn below(fault: Option<Fault>, places: usize) -> usize
    ensures { result ≡ (found_below places fault).place }
{
    match fault {
        Some(found) => found.place,
        None => places,
    }
}

// What is due once all pairs are gone through: that of the first faulty one, then 15 for a block that no pair marked. An N stands for a
// refusal, as a word does by its number: so a fault may have any number. It is `Drop` so that a body which lets a fault go is refused by what is promised here.
#[tactic(auto, using(crate::proofs::Finding::number_found, crate::proofs::Finding::number_marked, crate::proofs::Finding::number_useless))]
pub fn final_number<N: From<Refusal> + Drop>(marks: &[u8], fault: Option<Fault<N>>) -> Result<(), N>
    ensures { (value : N → ℕ) → ((n : N) → N.from_gives UselessBlock n → value n ≡ 15) → (places : ℕ) → IfSome fault (λ f. f.place < places) → numbered value result ≡ number_of_check places (length marks.now) marks.now (found_by value places fault) }
{
    if let Some(Fault { refusal: due, .. }) = fault {
        return Err(due);
    }
    if !all_marked(marks) {
        return Err(N::from(Refusal::UselessBlock));
    }
    Ok(())
}

// Fills the table a column at a time, on any map that was surveyed. It ends at a place that some other cannot reach (11). Where no
// map was surveyed, nothing is said.
pub fn columns<U, T: Table<U>>(survey: &Survey, table: &mut [U]) -> Result<(), Refusal>
    requires room { survey.now.roads.places * survey.now.roads.places ≤ length (T.held table.old) }
    requires whole { table.old ≡ T.written (T.held table.old) table.old }
    ensures { (m : Map) → OnSurvey survey.now m → CheckedIn T.held T.written 0 m table.old (number result) table.new }
{
    let places = survey.roads.places;
    let mut marks = [0u8; MOST_BLOCKS];
    let mut column = [0u32; MOST_PLACES];
    let mut fault = None;
    for v in 0..places {
        let end = below(fault, places);
        match judge_column(survey, v, &mut column, &mut marks, end) {
            Ok(found) => fault = found.or(fault),
            Err(refusal) => {
                T::clear(table, places * places);
                return Err(refusal);
            }
        }
        T::store_column(table, places, v, &column);
    }
    final_number(&marks[..survey.chart.ground.counts.blocks], fault)
}

// The same of a survey that some map has. It promises no more, but asks for the map without which all is open: so what it gives is pinned.
pub fn columns_of_map<U, T: Table<U>>(survey: &Survey, table: &mut [U]) -> Result<(), Refusal>
    requires surveyed { SomeSurvey survey.now }
    requires room { survey.now.roads.places * survey.now.roads.places ≤ length (T.held table.old) }
    requires whole { table.old ≡ T.written (T.held table.old) table.old }
    ensures { (m : Map) → OnSurvey survey.now m → CheckedIn T.held T.written 0 m table.old (number result) table.new }
{
    columns::<U, T>(survey, table)
}

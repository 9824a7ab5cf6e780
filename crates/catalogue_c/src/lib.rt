// The entries for C: both functions of the crate catalogue under their names, by the C calling convention, with the same clauses. include/atlas.h declares them.
#![tactic(auto)]

ghost use Rattle.std.specs.Prelude.{◌≡◌, ◌↔◌, ◌*◌, ◌≤◌, length};
ghost use Rattle.paper.specs.Sizes.{word_bytes};
ghost use Rattle.paper.specs.Sheet.{map_of};
ghost use Rattle.paper.specs.Words.{longs_held};
ghost use Rattle.paper.specs.Verdict.{area, Accepted};
ghost use Rattle.paper.specs.Reply.{ListsNearest, RefinesThriftily};
ghost use Rattle.paper.specs.Host.{HostChecked, host_reply, HostValid, read_back};
ghost use Rattle.catalogue.specs.Handed.{handed};

// `atlas_check` of the crate catalogue. It stands twice since a crate is a library or an archive for C.
#[unsafe(no_mangle)]
pub extern "C" fn atlas_check(sheet: &[u8], distances: &mut [u8]) -> u32
    ensures rules { HostChecked sheet.now distances.old result distances.new }
    ensures truth { word_bytes * area (map_of sheet.now) ≤ length distances.old → (result ≡ 0) ↔ Accepted sheet.now }
{
    catalogue::atlas_check(sheet, distances)
}

// `atlas_question` of the crate catalogue.
#[unsafe(no_mangle)]
pub extern "C" fn atlas_question(
    sheet: &[u8],
    q: u32,
    k: u32,
    direction: u32,
    answer: &mut [u8],
    working: &mut [u8],
    counts: &mut [u8],
) -> u32
    ensures rules { handed result answer.new working.new counts.new ≡ host_reply sheet.now q k direction answer.old working.old counts.old }
    ensures nearest { Accepted sheet.now → HostValid sheet.now q k direction answer.old working.old counts.old → ListsNearest sheet.now q k direction (longs_held answer.old) (read_back (handed result answer.new working.new counts.new)) }
    ensures thrifty { Accepted sheet.now → HostValid sheet.now q k direction answer.old working.old counts.old → RefinesThriftily sheet.now q k direction (read_back (handed result answer.new working.new counts.new)) }
{
    catalogue::atlas_question(sheet, q, k, direction, answer, working, counts)
}

// One column of a survey that some map has, judged by itself: nothing else calls for just one.
ghost use Rattle.std.specs.Prelude.{◌<◌};

use crate::columns::judge_column_of_map;
use crate::known::Survey;
use crate::pairs::Fault;
use crate::survey;
use paper::Refusal;
use paper::sizes::{MOST_BLOCKS, MOST_PLACES, MOST_STAGES, WORD_BYTES};
use roads::Roads;
use sheet::{Chart, Mapped, layout};
use std::test::Fail;

const WORDS: usize = 16;

// What the column of v comes to, on a map that is read off the bytes.
fn judged(map: &Mapped, v: usize, column: &mut [u32; MOST_PLACES]) -> Result<Option<Fault>, Refusal>
    requires { v < map.now.counts.places }
{
    let mut first = [0u32; MOST_PLACES];
    let mut tails = [0u32; MOST_STAGES];
    let mut heads = [0u32; MOST_STAGES];
    let mut lengths = [0u32; MOST_STAGES];
    let mut last = [0u32; MOST_PLACES];
    let mut previous = [0u32; MOST_STAGES];
    survey(
        map,
        &mut first,
        &mut tails,
        &mut heads,
        &mut lengths,
        &mut last,
        &mut previous,
    );
    let surveyed = Survey {
        chart: Chart {
            ground: map.ground(),
            first: &first,
            heads: &heads,
            lengths: &lengths,
        },
        roads: Roads {
            tails: &tails[..map.counts.stages],
            lengths: &lengths,
            last: &last,
            previous: &previous,
            places: map.counts.places,
        },
    };
    let mut marks = [0u8; MOST_BLOCKS];
    judge_column_of_map(&surveyed, v, column, &mut marks, map.counts.places)
}

// Place 1 is 3 furlongs from place 0, and place 0 is 5 from place 1. There are no blocks and no offices.
#[test]
fn columns_of_two_places(rt: HostRuntime) -> Result<(), Fail> {
    let words: [u32; WORDS] = [2, 0, 0, 1, 1, 0, 2, 2, 0, 1, 3, 1, 0, 5, 0, 0];
    let mut bytes = [0u8; WORD_BYTES * WORDS];
    let (chunks, _) = bytes.as_chunks_mut::<WORD_BYTES>();
    for (chunk, word) in chunks.iter_mut().zip(&words) {
        *chunk = word.to_le_bytes();
    }
    let map = layout(&bytes)?.map;
    assert_eq!(rt; map.counts.places, 2);
    let mut column = [0u32; MOST_PLACES];
    let to_1 = judged(&map, 1, &mut column);
    assert!(rt;
        matches!(
            to_1,
            Ok(Some(Fault {
                place: 0,
                refusal: Refusal::NoBlock
            }))
        )
    );
    assert_eq!(rt; &column[..2], [3, 0].as_slice());
    let to_0 = judged(&map, 0, &mut column);
    assert!(rt;
        matches!(
            to_0,
            Ok(Some(Fault {
                place: 1,
                refusal: Refusal::NoBlock
            }))
        )
    );
    assert_eq!(rt; &column[..2], [0, 5].as_slice());
    Ok(())
}

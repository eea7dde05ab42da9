ghost use Rattle.std.specs.Prelude.{◌≡◌};
ghost use Rattle.tree_build.specs.Build.{tree_built};
ghost use Rattle.capi.specs.Trees.{packed_told, packed_all};

use crate::told::tell_refusal;
use answers::Refusal;
use tree_build::build_tree;

fn tell_built(answer: Result<Option<usize>, Refusal>, value: &mut u64) -> u32
    ensures { packed_told answer ≡ (result, value.new) }
{
    match answer {
        Ok(Some(n)) => {
            *value = n as u64;
            1
        }
        Ok(None) => {
            *value = 0;
            0
        }
        Err(why) => tell_refusal(why, value),
    }
}

// Builds a ring's packed tree.
#[unsafe(no_mangle)]
pub extern "C" fn brothstitch_build_tree(
    coords: &[i32],
    points: usize,
    threshold: usize,
    bytes: &mut [u8],
    work: &mut [u32],
    value: &mut u64,
) -> u32
    ensures { packed_all (tree_built coords.now points threshold bytes.old work.old) ≡ ((result, value.new), bytes.new, work.new) }
{
    let answer = build_tree(coords, points, threshold, bytes, work);
    tell_built(answer, value)
}

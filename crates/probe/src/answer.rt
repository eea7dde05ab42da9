// How an answer is told.
ghost use Rattle.std.specs.Prelude.{◌≡◌};
ghost use Rattle.probe.specs.Numbers.{value_numbers, answer_numbers};

use answers::{Answer, Refusal};

// What came with an answer goes to value, and a refusal's place to place; what there is none of is told as 0, and `none`.
pub fn put_value<V: Copy>(
    answer: Result<V, Refusal>,
    none: V,
    place: &mut usize,
    value: &mut V,
) -> u32
    ensures { value_numbers none answer ≡ (result, place.new, value.new) }
{
    match answer {
        Ok(given) => {
            *place = 0;
            *value = given;
            0
        }
        Err(refusal) => {
            *place = refusal.place();
            *value = none;
            refusal.number()
        }
    }
}

// 1 for yes and 0 for no.
pub fn put_answer(answer: Answer, place: &mut usize, said: &mut u32) -> u32
    ensures { answer_numbers answer ≡ (result, place.new, said.new) }
{
    put_value(answer.map(u32::from), 0, place, said)
}

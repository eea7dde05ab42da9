// How answers are told.
ghost use Rattle.std.specs.Prelude.{◌≡◌};
ghost use Rattle.capi.specs.Told.{is_set, refusal_told, answer_told};
ghost use Rattle.capi.specs.Lists.{list_told};
ghost use Rattle.capi.specs.Wkb.{wkb_refusal_told};

use answers::{Answer, Refusal};
use wkb_shape::WkbRefusal;

// An option that is off at 0 and on at any other number.
pub fn is_set(option: u32) -> bool
    ensures { result ≡ is_set option }
{
    option != 0
}

pub fn tell_refusal(why: Refusal, value: &mut u64) -> u32
    ensures { refusal_told why ≡ (result, value.new) }
{
    tell_wkb_refusal(WkbRefusal::from(why), value)
}

pub fn tell_wkb_refusal(why: WkbRefusal, value: &mut u64) -> u32
    ensures { wkb_refusal_told why ≡ (result, value.new) }
{
    *value = why.place() as u64;
    100 + why.number()
}

pub fn tell_answer(answer: Answer, value: &mut u64) -> u32
    ensures { answer_told answer ≡ (result, value.new) }
{
    match answer {
        Ok(yes) => {
            *value = 0;
            u32::from(yes)
        }
        Err(why) => tell_refusal(why, value),
    }
}

// How many were listed, or stored, or built.
pub fn tell_count(answer: Result<usize, Refusal>, value: &mut u64) -> u32
    ensures { list_told answer ≡ (result, value.new) }
{
    match answer {
        Ok(n) => {
            *value = n as u64;
            0
        }
        Err(why) => tell_refusal(why, value),
    }
}

// The function of include/pit.h that plays a list.
ghost use Rattle.std.specs.Prelude.{◌≡◌};
ghost use Rattle.play.specs.Play.{outcome_of};
ghost use Rattle.pit_c.specs.Playing.{totals_of, play_answer, play_device, play_answers, play_openings, play_totals};

use crate::calls::WRONG_SIZE;
use crate::layout::{device_of, put_whole};
use play::Played;

// How many totals there are.
const TOTALS: usize = 4;

// A refusal's place, the answer bytes, the openings and the clocks.
fn totals_of(played: Played) -> [u64; TOTALS]
    ensures { result ≡ totals_of (outcome_of played) }
{
    match played.totals {
        Ok(totals) => [
            0,
            totals.answers as u64,
            totals.openings as u64,
            totals.clocks as u64,
        ],
        Err(refused) => [refused.place as u64, 0, 0, 0],
    }
}

// Plays a list. A refusal leaves the device's bytes as they were.
#[unsafe(no_mangle)]
pub extern "C" fn pit_play(
    device: &mut [u8],
    list: &[u8],
    answers: &mut [u8],
    openings: &mut [u32],
    totals: &mut [u64],
) -> u32
    ensures answer { result ≡ play_answer device.old list.now answers.old openings.old totals.old }
    ensures device { device.new ≡ play_device device.old list.now answers.old openings.old totals.old }
    ensures answers { answers.new ≡ play_answers device.old list.now answers.old openings.old totals.old }
    ensures openings { openings.new ≡ play_openings device.old list.now answers.old openings.old totals.old }
    ensures totals { totals.new ≡ play_totals device.old list.now answers.old openings.old totals.old }
{
    let Some(bytes) = device.as_mut_array() else {
        return WRONG_SIZE;
    };
    let Some(totals) = totals.as_mut_array() else {
        return WRONG_SIZE;
    };
    let played = play::play(list, device_of(bytes), answers, openings);
    *totals = totals_of(played);
    match played.totals {
        Ok(_) => {
            put_whole(played.device, bytes);
            0
        }
        Err(refused) => u32::from(u8::from(refused.refusal)),
    }
}

// Damage: one byte of an image changed, and judged.
use books::Book;
use image::inspect;
use journals::Journal;
use trial::TrialDrive;

/// How many images were still lawful, and how many were refused by each number.
#[derive(Clone, Copy)]
pub struct Verdicts {
    pub lawful: u64,
    pub refused: [u64; 32],
}

/// Judges each image that differs from this one in one byte, which is one higher.
pub(crate) fn sweep_damage<B: Book>(book: &B, image: &[u8], scratch: &mut [u8]) -> Verdicts {
    let mut verdicts = Verdicts {
        lawful: 0,
        refused: [0; 32],
    };
    for place in 0..image.len().min(scratch.len()) {
        if scratch.len() != image.len() {
            break;
        }
        scratch.copy_from_slice(image);
        scratch[place] = scratch[place].wrapping_add(1);
        let mut journal = Journal::over(TrialDrive::over(scratch, &[]));
        match inspect(&mut journal, book) {
            Ok(_) => verdicts.lawful = verdicts.lawful.saturating_add(1),
            Err(refusal) => {
                if let Some(count) = verdicts
                    .refused
                    .get_mut(usize::from(u8::from(refusal.reason)))
                {
                    *count = count.saturating_add(1);
                }
            }
        }
    }
    verdicts
}

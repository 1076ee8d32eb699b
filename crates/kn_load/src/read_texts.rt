//! The readings of texts in their order, up to the first that has none.
ghost use Rattle.std.specs.Prelude.{◌<◌, ◌^◌, ◌∷◌, ◌++◌, [], length, ℕ, List as Of, IfOk, OnOk};
ghost use Rattle.std.specs.List.{AllZip};
ghost use Rattle.kn_load.specs.Readings.{IsReadResultOf, AreReadings};

use crate::read_results::{ReadResult, read_result};
use kn_assert::ReadFault;
use kn_base::{List, NoMemory, Octets};
use kn_history::Ready;
use std::alloc::Global;

/// What was read of texts, up to the first that has no reading.
#[derive(Drop)]
pub(crate) struct ReadTexts {
    /// The texts before it, with their readings.
    pub ready_texts: Vec<Ready>,
    /// The fault of that text, or `NoMemory`; none where all have a reading.
    pub fault: Option<ReadFault>,
}

impl ReadTexts {
    /// Adds what was read of the next text. Behind a text that has a fault nothing is added.
    fn add_result(&mut self, found: ReadResult) -> Result<(), NoMemory>
        requires found { (text : Of ℕ) × IsReadResultOf text found }
        ensures { (texts : Of (Of ℕ)) (text : Of ℕ) → AreReadings texts self.old → IsReadResultOf text found
            → OnOk result (AreReadings (texts ++ text ∷ []) self.new) }
    {
        if self.fault.is_some() {
            return Ok(());
        }
        match found {
            ReadResult::Unread => unreachable!(),
            ReadResult::Read(ready) => match self.ready_texts.push(ready) {
                Ok(()) => Ok(()),
                Err(_) => Err(NoMemory),
            },
            ReadResult::Faulty(fault) => {
                self.fault = Some(fault);
                Ok(())
            }
        }
    }
}

/// The readings of no text, with room for so many.
fn no_readings(alloc: Global, room: usize) -> Result<ReadTexts, NoMemory>
    ensures { IfOk result (λ readings. AreReadings [] readings) }
{
    match Vec::with_capacity(alloc, room) {
        Ok(ready_texts) => Ok(ReadTexts {
            ready_texts,
            fault: None,
        }),
        Err(_) => Err(NoMemory),
    }
}

/// The readings that were found of texts.
pub(crate) fn readings_of(alloc: Global, results: Vec<ReadResult>) -> Result<ReadTexts, NoMemory>
    requires results { (texts : Of (Of ℕ)) × AllZip IsReadResultOf texts results.items }
    ensures { (texts : Of (Of ℕ)) → AllZip IsReadResultOf texts results.items
        → IfOk result (λ readings. AreReadings texts readings) }
{
    let mut readings = no_readings(alloc, results.len())?;
    for found in results {
        readings.add_result(found)?;
    }
    Ok(readings)
}

/// The readings of texts.
pub(crate) fn read_texts(alloc: Global, texts: &List<Octets>) -> Result<ReadTexts, NoMemory>
    ensures few { length texts.now < 2 ^ 32 }
    ensures read { IfOk result (λ readings. AreReadings texts.now readings) }
{
    let mut readings = no_readings(alloc, texts.len() as usize)?;
    let items = texts.as_slice();
    for text in items {
        readings.add_result(read_result(alloc, text.as_slice()))?;
    }
    Ok(readings)
}

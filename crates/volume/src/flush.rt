// Document 02, W4: what is pending, and the tests that wait for it.
ghost use Rattle.std.specs.Prelude.{◌≡◌};
ghost use Rattle.base.specs.Refusals.{refusal, checked};
ghost use Rattle.volume.specs.Calls.{block_rows, record_rows, flushed_outcome};
ghost use Rattle.volume.specs.States.{with_pending, record_pending, block_pending};

use super::{Pending, Reply, Told, Volume};
use base::Refusal;

impl Volume {
    // The same volume with this pending.
    pub(crate) fn with_pending(self, pending: Pending) -> Volume
        ensures { result ≡ with_pending self pending }
    {
        Volume { pending, ..self }
    }

    // The state after a store of the record.
    pub(crate) fn after_record(self) -> Volume
        ensures { result ≡ with_pending self (record_pending self.pending) }
    {
        self.with_pending(Pending {
            records: true,
            ..self.pending
        })
    }

    // The state after a store of a block.
    pub(crate) fn after_block(self) -> Volume
        ensures { result ≡ with_pending self (block_pending self.pending) }
    {
        self.with_pending(Pending {
            blocks: true,
            ..self.pending
        })
    }

    // The last test of a call that stores a block.
    pub(crate) fn check_block_store(&self) -> Result<(), Refusal>
        ensures { result ≡ checked (refusal (block_rows self.now)) }
    {
        if self.pending.records {
            return Err(Refusal::FlushRecord);
        }
        Ok(())
    }

    // The last tests of a call that stores the record.
    pub(crate) fn check_record_store(&self) -> Result<(), Refusal>
        ensures { result ≡ checked (refusal (record_rows self.now)) }
    {
        self.check_block_store()?;
        if self.pending.blocks {
            return Err(Refusal::FlushBlocks);
        }
        Ok(())
    }

    // Tells that all earlier stores are down.
    pub fn flushed(self) -> Reply<Told>
        ensures { result ≡ (flushed_outcome self).reply }
    {
        if !self.is_sound() {
            return self.refuse(Refusal::NotSound);
        }
        let v = self.with_pending(Pending {
            records: false,
            blocks: false,
        });
        v.accept(Told::Done)
    }
}

//! The mails of an mbox in memory.
ghost use Rattle.std.specs.Prelude.{◌≡◌, false, IfOk, IfSome, OnOk};
ghost use Rattle.mailbox_model.specs.Mailbox.{IsValidChange};
ghost use Rattle.mboxrd.specs.Mails.{mails_from};
ghost use Rattle.trial.specs.Ahead.{ArrivesNext};

use arrivals::arrival_of;
use kit::Memory;
use mailbox_model::Change;
use mboxrd::{BoxFault, MboxReader};
use outside::{QuietSource, Source};
use std::alloc::Global;
use std::marker::Model;

/// So many bytes are taken at once, at most.
const CHUNK_LEN: usize = 65_536;

/// The mails of an mbox in memory, one after the other. After a call that failed it may only be dropped.
#[derive(Drop)]
pub struct BoxMails {
    source: QuietSource,
    reader: MboxReader,
}

impl Model for BoxMails {
    ghost use Rattle.trial.specs.Ahead.{Ahead, IsWithin, mails_ahead};

    ghost Value = { Ahead };

    ghost view = { λ box_mails. record {
      mails = mails_ahead (⟦<QuietSource as Source>⟧.left box_mails.source) box_mails.reader;
      refused = box_mails.reader.refused;
    } };

    ghost invariant = { λ box_mails. IsWithin (⟦<QuietSource as Source>⟧.left box_mails.source) box_mails.reader };
}

impl BoxMails {
    /// The mails of these bytes, from the first on. Takes memory; `Err` only when it runs out.
    pub fn new(alloc: Global, bytes: Vec<u8>) -> Result<BoxMails, Memory>
        ensures { IfOk result (λ box_mails. box_mails ≡ record { mails = mails_from 0 bytes.items; refused = false }) }
    {
        let reader = MboxReader::new(alloc, CHUNK_LEN, u64::MAX)?;
        Ok(BoxMails {
            source: QuietSource::new(bytes),
            reader,
        })
    }

    /// The arrival of the next mail, which gets this uid: `None` exactly where no mail is left. Takes memory; `Err` only
    /// when it runs out.
    pub fn next_arrival(&mut self, alloc: Global, uid: u32) -> Result<Option<Change>, Memory>
        requires usable { self.old.refused ≡ false }
        ensures next { IfOk result (λ change. ArrivesNext uid self.old.mails change self.new.mails) }
        ensures valid { IfOk result (λ change. IfSome change IsValidChange) }
        ensures usable { OnOk result (self.new.refused ≡ false) }
    {
        match self.reader.next(alloc, &mut self.source) {
            Ok(taken) => arrival_of(alloc, uid, taken),
            Err(BoxFault::Memory) => Err(Memory),
            // A source in memory does not fail, and no vector has as many bytes as the reader may take.
            Err(BoxFault::Read | BoxFault::Endless) => unreachable!(),
        }
    }
}

//! Spelling and reading of the saved value of a service.
use crate::list::read_numbered;
use crate::parts::Parts;
use crate::wire::Wire;
use calls::{Saved, SavedAlarm, SavedReader, SavedStream, SavedSub, SavedWindow};
use ntf_filters::FilterSet;
use ntf_types::Notification;
use std::alloc::{AllocError, Global};
use stream_config::StreamState;
use wire_code::{Trouble, read_client};

impl Wire for SavedWindow {
    ghost use Rattle.wire.specs.SavedSpelling.{saved_window_text, SavedWindowFits, SavedWindowInRange};
    ghost use Rattle.wire.specs.SavedReading.{saved_window_at};

    ghost text = { saved_window_text };

    ghost Fits = { SavedWindowFits };

    ghost InRange = { SavedWindowInRange };

    ghost at = { saved_window_at };

    #[tactic(auto, unfolding(crate::specs::SavedSpelling::saved_window_text))]
    fn spell(&self, out: &mut Vec<u8>) -> Result<(), AllocError> {
        (&self.client, (&self.next, &self.replies)).spell_parts(out)
    }

    #[tactic(auto, unfolding(crate::specs::SavedReading::saved_window_at))]
    fn read_front(alloc: Global, bytes: &[u8]) -> Result<(SavedWindow, &[u8]), Trouble> {
        let ((client, (next, replies)), rest) = read_numbered(alloc, bytes)?;
        Ok((
            SavedWindow {
                client,
                next,
                replies,
            },
            rest,
        ))
    }
}

impl Wire for SavedStream {
    ghost use Rattle.wire.specs.SavedSpelling.{saved_stream_text, SavedStreamFits};
    ghost use Rattle.wire.specs.SavedReading.{saved_stream_at};

    ghost text = { saved_stream_text };

    ghost Fits = { SavedStreamFits };

    ghost at = { saved_stream_at };

    #[tactic(auto, unfolding(crate::specs::SavedSpelling::saved_stream_text))]
    fn spell(&self, out: &mut Vec<u8>) -> Result<(), AllocError> {
        (&self.state, (&self.openers, &self.mark)).spell_parts(out)
    }

    #[tactic(auto, unfolding(crate::specs::SavedReading::saved_stream_at))]
    fn read_front(alloc: Global, bytes: &[u8]) -> Result<(SavedStream, &[u8]), Trouble> {
        let ((state, (openers, mark)), rest) = Wire::read_front(alloc, bytes)?;
        Ok((
            SavedStream {
                state,
                openers,
                mark,
            },
            rest,
        ))
    }
}

impl Wire for SavedAlarm {
    ghost use Rattle.wire.specs.SavedSpelling.{saved_alarm_text, SavedAlarmFits};
    ghost use Rattle.wire.specs.SavedReading.{saved_alarm_at};

    ghost text = { saved_alarm_text };

    ghost Fits = { SavedAlarmFits };

    ghost at = { saved_alarm_at };

    #[tactic(auto, unfolding(crate::specs::SavedSpelling::saved_alarm_text))]
    fn spell(&self, out: &mut Vec<u8>) -> Result<(), AllocError> {
        (&self.k, &self.notification).spell_parts(out)
    }

    #[tactic(auto, unfolding(crate::specs::SavedReading::saved_alarm_at))]
    fn read_front(alloc: Global, bytes: &[u8]) -> Result<(SavedAlarm, &[u8]), Trouble> {
        let ((k, notification), rest) = Wire::read_front(alloc, bytes)?;
        Ok((SavedAlarm { k, notification }, rest))
    }
}

impl Wire for SavedSub {
    ghost use Rattle.wire.specs.SavedSpelling.{saved_sub_text, SavedSubFits, SavedSubInRange};
    ghost use Rattle.wire.specs.SavedReading.{saved_sub_at};

    ghost text = { saved_sub_text };

    ghost Fits = { SavedSubFits };

    ghost InRange = { SavedSubInRange };

    ghost at = { saved_sub_at };

    #[tactic(auto, unfolding(crate::specs::SavedSpelling::saved_sub_text))]
    fn spell(&self, out: &mut Vec<u8>) -> Result<(), AllocError> {
        (
            &self.client,
            (
                &self.key,
                (
                    &self.id,
                    (&self.filters, (&self.first, (&self.held, &self.lost))),
                ),
            ),
        )
            .spell_parts(out)
    }

    #[tactic(auto, unfolding(crate::specs::SavedReading::saved_sub_at))]
    fn read_front(alloc: Global, bytes: &[u8]) -> Result<(SavedSub, &[u8]), Trouble> {
        let ((client, (key, (id, (filters, (first, (held, lost)))))), rest) = read_numbered(
            alloc, bytes,
        )?;
        Ok((
            SavedSub {
                client,
                key,
                id,
                filters,
                first,
                held,
                lost,
            },
            rest,
        ))
    }
}

impl Wire for SavedReader {
    ghost use Rattle.wire.specs.SavedSpelling.{saved_reader_text, SavedReaderFits, SavedReaderInRange};
    ghost use Rattle.wire.specs.SavedReading.{saved_reader_at};

    ghost text = { saved_reader_text };

    ghost Fits = { SavedReaderFits };

    ghost InRange = { SavedReaderInRange };

    ghost at = { saved_reader_at };

    #[tactic(auto, unfolding(crate::specs::SavedSpelling::saved_reader_text))]
    fn spell(&self, out: &mut Vec<u8>) -> Result<(), AllocError> {
        (
            &self.client,
            (&self.filters, (&self.time, (&self.id, &self.fresh))),
        )
            .spell_parts(out)
    }

    #[tactic(auto, unfolding(crate::specs::SavedReading::saved_reader_at))]
    fn read_front(alloc: Global, bytes: &[u8]) -> Result<(SavedReader, &[u8]), Trouble> {
        let (client, rest) = read_client(bytes)?;
        let ((filters, (time, (id, fresh))), rest) = Wire::read_front(alloc, rest)?;
        Ok((
            SavedReader {
                client,
                filters,
                time,
                id,
                fresh,
            },
            rest,
        ))
    }
}

impl Wire for Saved {
    ghost use Rattle.wire.specs.SavedSpelling.{saved_text, SavedFits, SavedInRange};
    ghost use Rattle.wire.specs.SavedReading.{saved_at};

    ghost text = { saved_text };

    ghost Fits = { SavedFits };

    ghost InRange = { SavedInRange };

    ghost at = { saved_at };

    #[tactic(auto, unfolding(crate::specs::SavedSpelling::saved_text))]
    fn spell(&self, out: &mut Vec<u8>) -> Result<(), AllocError> {
        (
            &self.number,
            (
                &self.last_stamp,
                (
                    &self.last_id,
                    (
                        &self.capacity,
                        (
                            &self.log_users,
                            (
                                &self.ntf_users,
                                (
                                    &self.windows,
                                    (&self.streams, (&self.alarms, (&self.subs, &self.readers))),
                                ),
                            ),
                        ),
                    ),
                ),
            ),
        )
            .spell_parts(out)
    }

    #[tactic(auto, unfolding(crate::specs::SavedReading::saved_at))]
    fn read_front(alloc: Global, bytes: &[u8]) -> Result<(Saved, &[u8]), Trouble> {
        let (
            (
                number,
                (
                    last_stamp,
                    (
                        last_id,
                        (
                            capacity,
                            (
                                log_users,
                                (ntf_users, (windows, (streams, (alarms, (subs, readers))))),
                            ),
                        ),
                    ),
                ),
            ),
            rest,
        ) = Wire::read_front(alloc, bytes)?;
        Ok((
            Saved {
                number,
                last_stamp,
                last_id,
                capacity,
                log_users,
                ntf_users,
                windows,
                streams,
                alarms,
                subs,
                readers,
            },
            rest,
        ))
    }
}

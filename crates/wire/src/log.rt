//! Spelling and reading of streams and log records.
use crate::parts::{Parts, spell_tag, spell_tagged};
use crate::wire::Wire;
use ais_values::{ClassId, Name, Seq, Text};
use record_print::Header;
use std::alloc::{AllocError, Global};
use stream_config::{FullAction, LogFile, Mark, StreamAttrs, StreamName, StreamState};
use wire_code::{Fault, Trouble, read_first};

impl Wire for FullAction {
    ghost use Rattle.wire.specs.LogSpelling.{action_text, ActionFits};
    ghost use Rattle.wire.specs.LogReading.{action_at};

    ghost text = { action_text };

    ghost Fits = { ActionFits };

    ghost at = { action_at };

    #[tactic(auto, unfolding(crate::specs::LogSpelling::action_text))]
    fn spell(&self, out: &mut Vec<u8>) -> Result<(), AllocError> {
        match self {
            FullAction::Wrap => spell_tag(1, out),
            FullAction::Halt => spell_tag(2, out),
            FullAction::Rotate => spell_tag(3, out),
        }
    }

    #[tactic(auto, unfolding(crate::specs::LogReading::action_at))]
    fn read_front(_alloc: Global, bytes: &[u8]) -> Result<(FullAction, &[u8]), Trouble> {
        let (tag, rest) = read_first(bytes)?;
        match tag {
            1 => Ok((FullAction::Wrap, rest)),
            2 => Ok((FullAction::Halt, rest)),
            3 => Ok((FullAction::Rotate, rest)),
            _ => Err(Trouble::from(Fault::before(rest))),
        }
    }
}

impl Wire for StreamName {
    ghost use Rattle.wire.specs.LogSpelling.{stream_name_text, StreamNameFits};
    ghost use Rattle.wire.specs.LogReading.{stream_name_at};

    ghost text = { stream_name_text };

    ghost Fits = { StreamNameFits };

    ghost at = { stream_name_at };

    #[tactic(auto, unfolding(crate::specs::LogSpelling::stream_name_text))]
    fn spell(&self, out: &mut Vec<u8>) -> Result<(), AllocError> {
        match self {
            StreamName::Alarm => spell_tag(1, out),
            StreamName::Notification => spell_tag(2, out),
            StreamName::System => spell_tag(3, out),
            StreamName::App { name } => spell_tagged(4, &name, out),
        }
    }

    #[tactic(auto, unfolding(crate::specs::LogReading::stream_name_at))]
    fn read_front(alloc: Global, bytes: &[u8]) -> Result<(StreamName, &[u8]), Trouble> {
        let (tag, rest) = read_first(bytes)?;
        match tag {
            1 => Ok((StreamName::Alarm, rest)),
            2 => Ok((StreamName::Notification, rest)),
            3 => Ok((StreamName::System, rest)),
            4 => {
                let (name, rest) = Name::read_front(alloc, rest)?;
                Ok((StreamName::App { name }, rest))
            }
            _ => Err(Trouble::from(Fault::before(rest))),
        }
    }
}

impl Wire for StreamAttrs {
    ghost use Rattle.wire.specs.LogSpelling.{attrs_text, AttrsFits};
    ghost use Rattle.wire.specs.LogReading.{attrs_at};

    ghost text = { attrs_text };

    ghost Fits = { AttrsFits };

    ghost at = { attrs_at };

    #[tactic(auto, unfolding(crate::specs::LogSpelling::attrs_text))]
    fn spell(&self, out: &mut Vec<u8>) -> Result<(), AllocError> {
        (
            &self.file,
            (
                &self.path,
                (
                    &self.max_file,
                    (
                        &self.record_size,
                        (&self.ha, (&self.action, (&self.rotated, &self.expr))),
                    ),
                ),
            ),
        )
            .spell_parts(out)
    }

    #[tactic(auto, unfolding(crate::specs::LogReading::attrs_at))]
    fn read_front(alloc: Global, bytes: &[u8]) -> Result<(StreamAttrs, &[u8]), Trouble> {
        let ((file, (path, (max_file, (record_size, (ha, (action, (rotated, expr))))))), rest) =
            Wire::read_front(alloc, bytes)?;
        Ok((
            StreamAttrs {
                file,
                path,
                max_file,
                record_size,
                ha,
                action,
                rotated,
                expr,
            },
            rest,
        ))
    }
}

impl Wire for LogFile {
    ghost use Rattle.wire.specs.LogSpelling.{log_file_text, LogFileFits};
    ghost use Rattle.wire.specs.LogReading.{log_file_at};

    ghost text = { log_file_text };

    ghost Fits = { LogFileFits };

    ghost at = { log_file_at };

    #[tactic(auto, unfolding(crate::specs::LogSpelling::log_file_text))]
    fn spell(&self, out: &mut Vec<u8>) -> Result<(), AllocError> {
        (&self.created, (&self.closed, (&self.first, &self.bytes))).spell_parts(out)
    }

    #[tactic(auto, unfolding(crate::specs::LogReading::log_file_at))]
    fn read_front(alloc: Global, bytes: &[u8]) -> Result<(LogFile, &[u8]), Trouble> {
        let ((created, (closed, (first, bytes))), rest) = Wire::read_front(alloc, bytes)?;
        Ok((
            LogFile {
                created,
                closed,
                first,
                bytes,
            },
            rest,
        ))
    }
}

impl Wire for StreamState {
    ghost use Rattle.wire.specs.LogSpelling.{stream_text, StreamFits};
    ghost use Rattle.wire.specs.LogReading.{stream_at};

    ghost text = { stream_text };

    ghost Fits = { StreamFits };

    ghost at = { stream_at };

    #[tactic(auto, unfolding(crate::specs::LogSpelling::stream_text))]
    fn spell(&self, out: &mut Vec<u8>) -> Result<(), AllocError> {
        (
            &self.name,
            (&self.attrs, (&self.taken, (&self.opened, &self.files))),
        )
            .spell_parts(out)
    }

    #[tactic(auto, unfolding(crate::specs::LogReading::stream_at))]
    fn read_front(alloc: Global, bytes: &[u8]) -> Result<(StreamState, &[u8]), Trouble> {
        let ((name, (attrs, (taken, (opened, files)))), rest) = Wire::read_front(alloc, bytes)?;
        Ok((
            StreamState {
                name,
                attrs,
                taken,
                opened,
                files,
            },
            rest,
        ))
    }
}

impl Wire for Mark {
    ghost use Rattle.wire.specs.LogSpelling.{mark_text, MarkFits};
    ghost use Rattle.wire.specs.LogReading.{mark_at};

    ghost text = { mark_text };

    ghost Fits = { MarkFits };

    ghost at = { mark_at };

    #[tactic(auto, unfolding(crate::specs::LogSpelling::mark_text))]
    fn spell(&self, out: &mut Vec<u8>) -> Result<(), AllocError> {
        (&self.since, &self.mask).spell_parts(out)
    }

    #[tactic(auto, unfolding(crate::specs::LogReading::mark_at))]
    fn read_front(alloc: Global, bytes: &[u8]) -> Result<(Mark, &[u8]), Trouble> {
        let ((since, mask), rest) = Wire::read_front(alloc, bytes)?;
        Ok((Mark { since, mask }, rest))
    }
}

impl Wire for Header {
    ghost use Rattle.wire.specs.LogSpelling.{header_text, HeaderFits};
    ghost use Rattle.wire.specs.LogReading.{header_at};

    ghost text = { header_text };

    ghost Fits = { HeaderFits };

    ghost at = { header_at };

    #[tactic(auto, unfolding(crate::specs::LogSpelling::header_text))]
    fn spell(&self, out: &mut Vec<u8>) -> Result<(), AllocError> {
        match self {
            Header::Ntf {
                id,
                event_type,
                object,
                notifier,
                class,
                event_time,
            } => spell_tagged(
                1,
                &(id, (event_type, (object, (notifier, (class, event_time))))),
                out,
            ),
            Header::Generic {
                class,
                user,
                severity,
            } => spell_tagged(2, &(class, (user, severity)), out),
        }
    }

    #[tactic(auto, unfolding(crate::specs::LogReading::header_at))]
    fn read_front(alloc: Global, bytes: &[u8]) -> Result<(Header, &[u8]), Trouble> {
        let (tag, rest) = read_first(bytes)?;
        match tag {
            1 => {
                let ((id, (event_type, (object, (notifier, (class, event_time))))), rest) =
                    Wire::read_front(alloc, rest)?;
                Ok((
                    Header::Ntf {
                        id,
                        event_type,
                        object,
                        notifier,
                        class,
                        event_time,
                    },
                    rest,
                ))
            }
            2 => {
                let ((class, (user, severity)), rest) = Wire::read_front(alloc, rest)?;
                Ok((
                    Header::Generic {
                        class,
                        user,
                        severity,
                    },
                    rest,
                ))
            }
            _ => Err(Trouble::from(Fault::before(rest))),
        }
    }
}

//! Spelling and reading of notifications and filters.
ghost use Rattle.wire_code.specs.Reading.{Gives};
ghost use Rattle.wire.specs.NtfReading.{security_at};

use crate::parts::{Parts, spell_tagged};
use crate::wire::Wire;
use ais_values::{ClassId, Name, Seq, Text};
use ntf_filters::{Filter, FilterSet};
use ntf_types::{Body, Change, Notification, Pair, StateChange, Value};
use std::alloc::{AllocError, Global};
use wire_code::{Fault, Trouble, read_first};

impl Wire for ClassId {
    ghost use Rattle.wire.specs.NtfSpelling.{class_text, ClassFits};
    ghost use Rattle.wire.specs.NtfReading.{class_at};

    ghost text = { class_text };

    ghost Fits = { ClassFits };

    ghost at = { class_at };

    #[tactic(auto, unfolding(crate::specs::NtfSpelling::class_text))]
    fn spell(&self, out: &mut Vec<u8>) -> Result<(), AllocError> {
        (&self.vendor, (&self.major, &self.minor)).spell_parts(out)
    }

    #[tactic(auto, unfolding(crate::specs::NtfReading::class_at))]
    fn read_front(alloc: Global, bytes: &[u8]) -> Result<(ClassId, &[u8]), Trouble> {
        let ((vendor, (major, minor)), rest) = Wire::read_front(alloc, bytes)?;
        Ok((
            ClassId {
                vendor,
                major,
                minor,
            },
            rest,
        ))
    }
}

impl Wire for Value {
    ghost use Rattle.wire.specs.NtfSpelling.{value_text, ValueFits};
    ghost use Rattle.wire.specs.NtfReading.{value_at};

    ghost text = { value_text };

    ghost Fits = { ValueFits };

    ghost at = { value_at };

    #[tactic(auto, unfolding(crate::specs::NtfSpelling::value_text))]
    fn spell(&self, out: &mut Vec<u8>) -> Result<(), AllocError> {
        match self {
            Value::Int { value } => spell_tagged(1, &value, out),
            Value::NameOf { name } => spell_tagged(2, &name, out),
            Value::TextOf { text } => spell_tagged(3, &text, out),
            Value::Binary { bytes } => spell_tagged(4, &bytes, out),
        }
    }

    #[tactic(auto, unfolding(crate::specs::NtfReading::value_at))]
    fn read_front(alloc: Global, bytes: &[u8]) -> Result<(Value, &[u8]), Trouble> {
        let (tag, rest) = read_first(bytes)?;
        match tag {
            1 => {
                let (value, rest) = i64::read_front(alloc, rest)?;
                Ok((Value::Int { value }, rest))
            }
            2 => {
                let (name, rest) = Name::read_front(alloc, rest)?;
                Ok((Value::NameOf { name }, rest))
            }
            3 => {
                let (text, rest) = Text::read_front(alloc, rest)?;
                Ok((Value::TextOf { text }, rest))
            }
            4 => {
                let (bytes, rest) = Text::read_front(alloc, rest)?;
                Ok((Value::Binary { bytes }, rest))
            }
            _ => Err(Trouble::from(Fault::before(rest))),
        }
    }
}

impl Wire for Pair {
    ghost use Rattle.wire.specs.NtfSpelling.{pair_text, PairFits};
    ghost use Rattle.wire.specs.NtfReading.{pair_at};

    ghost text = { pair_text };

    ghost Fits = { PairFits };

    ghost at = { pair_at };

    #[tactic(auto, unfolding(crate::specs::NtfSpelling::pair_text))]
    fn spell(&self, out: &mut Vec<u8>) -> Result<(), AllocError> {
        (&self.id, &self.value).spell_parts(out)
    }

    #[tactic(auto, unfolding(crate::specs::NtfReading::pair_at))]
    fn read_front(alloc: Global, bytes: &[u8]) -> Result<(Pair, &[u8]), Trouble> {
        let ((id, value), rest) = Wire::read_front(alloc, bytes)?;
        Ok((Pair { id, value }, rest))
    }
}

impl Wire for Change {
    ghost use Rattle.wire.specs.NtfSpelling.{change_text, ChangeFits};
    ghost use Rattle.wire.specs.NtfReading.{change_at};

    ghost text = { change_text };

    ghost Fits = { ChangeFits };

    ghost at = { change_at };

    #[tactic(auto, unfolding(crate::specs::NtfSpelling::change_text))]
    fn spell(&self, out: &mut Vec<u8>) -> Result<(), AllocError> {
        (&self.id, (&self.after, &self.before)).spell_parts(out)
    }

    #[tactic(auto, unfolding(crate::specs::NtfReading::change_at))]
    fn read_front(alloc: Global, bytes: &[u8]) -> Result<(Change, &[u8]), Trouble> {
        let ((id, (after, before)), rest) = Wire::read_front(alloc, bytes)?;
        Ok((Change { id, after, before }, rest))
    }
}

impl Wire for StateChange {
    ghost use Rattle.wire.specs.NtfSpelling.{state_change_text, StateChangeFits};
    ghost use Rattle.wire.specs.NtfReading.{state_change_at};

    ghost text = { state_change_text };

    ghost Fits = { StateChangeFits };

    ghost at = { state_change_at };

    #[tactic(auto, unfolding(crate::specs::NtfSpelling::state_change_text))]
    fn spell(&self, out: &mut Vec<u8>) -> Result<(), AllocError> {
        (&self.id, (&self.after, &self.before)).spell_parts(out)
    }

    #[tactic(auto, unfolding(crate::specs::NtfReading::state_change_at))]
    fn read_front(alloc: Global, bytes: &[u8]) -> Result<(StateChange, &[u8]), Trouble> {
        let ((id, (after, before)), rest) = Wire::read_front(alloc, bytes)?;
        Ok((StateChange { id, after, before }, rest))
    }
}

/// Reads what a notification of security tells, behind its tag.
fn read_security(alloc: Global, bytes: &[u8]) -> Result<(Body, &[u8]), Trouble>
    ensures { Gives (λ found. (found.0, found.1.now)) result (security_at bytes.now) }
{
    let ((cause, (severity, (detector, (user, provider)))), rest) = Wire::read_front(alloc, bytes)?;
    Ok((
        Body::Security {
            cause,
            severity,
            detector,
            user,
            provider,
        },
        rest,
    ))
}

impl Wire for Body {
    ghost use Rattle.wire.specs.NtfSpelling.{body_text, BodyFits};
    ghost use Rattle.wire.specs.NtfReading.{body_at};

    ghost text = { body_text };

    ghost Fits = { BodyFits };

    ghost at = { body_at };

    #[tactic(auto, unfolding(crate::specs::NtfSpelling::body_text))]
    fn spell(&self, out: &mut Vec<u8>) -> Result<(), AllocError> {
        match self {
            Body::Objects { source, attrs } => spell_tagged(1, &(source, attrs), out),
            Body::Attributes { source, changes } => spell_tagged(2, &(source, changes), out),
            Body::States { source, changes } => spell_tagged(3, &(source, changes), out),
            Body::Alarm { cause, severity } => spell_tagged(4, &(cause, severity), out),
            Body::Security {
                cause,
                severity,
                detector,
                user,
                provider,
            } => spell_tagged(5, &(cause, (severity, (detector, (user, provider)))), out),
        }
    }

    #[tactic(auto, unfolding(crate::specs::NtfReading::body_at))]
    fn read_front(alloc: Global, bytes: &[u8]) -> Result<(Body, &[u8]), Trouble> {
        let (tag, rest) = read_first(bytes)?;
        match tag {
            1 => {
                let ((source, attrs), rest) = Wire::read_front(alloc, rest)?;
                Ok((Body::Objects { source, attrs }, rest))
            }
            2 => {
                let ((source, changes), rest) = Wire::read_front(alloc, rest)?;
                Ok((Body::Attributes { source, changes }, rest))
            }
            3 => {
                let ((source, changes), rest) = Wire::read_front(alloc, rest)?;
                Ok((Body::States { source, changes }, rest))
            }
            4 => {
                let ((cause, severity), rest) = Wire::read_front(alloc, rest)?;
                Ok((Body::Alarm { cause, severity }, rest))
            }
            5 => read_security(alloc, rest),
            _ => Err(Trouble::from(Fault::before(rest))),
        }
    }
}

impl Wire for Notification {
    ghost use Rattle.wire.specs.NtfSpelling.{notification_text, NotificationFits};
    ghost use Rattle.wire.specs.NtfReading.{notification_at};

    ghost text = { notification_text };

    ghost Fits = { NotificationFits };

    ghost at = { notification_at };

    #[tactic(auto, unfolding(crate::specs::NtfSpelling::notification_text))]
    fn spell(&self, out: &mut Vec<u8>) -> Result<(), AllocError> {
        (
            &self.id,
            (
                &self.event_type,
                (
                    &self.object,
                    (
                        &self.notifier,
                        (
                            &self.class,
                            (
                                &self.event_time,
                                (&self.correlated, (&self.text, (&self.info, &self.body))),
                            ),
                        ),
                    ),
                ),
            ),
        )
            .spell_parts(out)
    }

    #[tactic(auto, unfolding(crate::specs::NtfReading::notification_at))]
    fn read_front(alloc: Global, bytes: &[u8]) -> Result<(Notification, &[u8]), Trouble> {
        let (
            (
                id,
                (
                    event_type,
                    (object, (notifier, (class, (event_time, (correlated, (text, (info, body))))))),
                ),
            ),
            rest,
        ) = Wire::read_front(alloc, bytes)?;
        Ok((
            Notification {
                id,
                event_type,
                object,
                notifier,
                class,
                event_time,
                correlated,
                text,
                info,
                body,
            },
            rest,
        ))
    }
}

impl Wire for Filter {
    ghost use Rattle.wire.specs.NtfSpelling.{filter_text, FilterFits};
    ghost use Rattle.wire.specs.NtfReading.{filter_at};

    ghost text = { filter_text };

    ghost Fits = { FilterFits };

    ghost at = { filter_at };

    #[tactic(auto, unfolding(crate::specs::NtfSpelling::filter_text))]
    fn spell(&self, out: &mut Vec<u8>) -> Result<(), AllocError> {
        (
            &self.types,
            (
                &self.objects,
                (
                    &self.notifiers,
                    (
                        &self.classes,
                        (&self.sources, (&self.causes, &self.severities)),
                    ),
                ),
            ),
        )
            .spell_parts(out)
    }

    #[tactic(auto, unfolding(crate::specs::NtfReading::filter_at))]
    fn read_front(alloc: Global, bytes: &[u8]) -> Result<(Filter, &[u8]), Trouble> {
        let ((types, (objects, (notifiers, (classes, (sources, (causes, severities)))))), rest) =
            Wire::read_front(alloc, bytes)?;
        Ok((
            Filter {
                types,
                objects,
                notifiers,
                classes,
                sources,
                causes,
                severities,
            },
            rest,
        ))
    }
}

impl Wire for FilterSet {
    ghost use Rattle.wire.specs.NtfSpelling.{filter_set_text, FilterSetFits};
    ghost use Rattle.wire.specs.NtfReading.{filter_set_at};

    ghost text = { filter_set_text };

    ghost Fits = { FilterSetFits };

    ghost at = { filter_set_at };

    #[tactic(auto, unfolding(crate::specs::NtfSpelling::filter_set_text))]
    fn spell(&self, out: &mut Vec<u8>) -> Result<(), AllocError> {
        (
            &self.objects,
            (
                &self.attributes,
                (&self.states, (&self.alarms, &self.security)),
            ),
        )
            .spell_parts(out)
    }

    #[tactic(auto, unfolding(crate::specs::NtfReading::filter_set_at))]
    fn read_front(alloc: Global, bytes: &[u8]) -> Result<(FilterSet, &[u8]), Trouble> {
        let ((objects, (attributes, (states, (alarms, security)))), rest) = Wire::read_front(
            alloc, bytes,
        )?;
        Ok((
            FilterSet {
                objects,
                attributes,
                states,
                alarms,
                security,
            },
            rest,
        ))
    }
}

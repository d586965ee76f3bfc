//! An alarm that is kept.
use ais_values::Shared;
use ntf_types::Notification;

/// An alarm or security alarm, with the number of its record in the alarm stream. It is shared with the values that it is saved in.
pub struct KeptAlarm {
    pub number: u32,
    pub notification: Shared<Notification>,
}

// Written out, as a derived one is proved anew in each crate that lets such a value go.
impl Drop for KeptAlarm {
    fn drop(self) {
        let KeptAlarm {
            number: _,
            notification,
        } = self;
        drop(notification);
    }
}

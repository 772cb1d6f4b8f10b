/// The format of kept alarms: what it spells is a `ListItem` of it.
pub(crate) struct AlarmFormat;

/// The format of sides: what it spells is a `ListItem` of it.
pub(crate) struct SideFormat;

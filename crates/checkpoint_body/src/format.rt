/// The format of bodies: what it spells lists of is a `ListItem` of it.
pub(crate) struct BodyFormat;

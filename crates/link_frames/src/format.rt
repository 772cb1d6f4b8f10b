/// The format of frames: what it spells is a `ListItem` of it.
pub(crate) struct FrameFormat;

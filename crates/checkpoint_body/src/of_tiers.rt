/// One for each tier.
#[derive(Drop)]
pub(crate) struct OfTiers<T> {
    pub(crate) points: T,
    pub(crate) minutes: T,
    pub(crate) hours: T,
}

ghost use Rattle.std.specs.Prelude.{◌≡◌};

/// One buffer object, for good: it is another than any that has its name later.
#[derive(Clone, Copy, Debug, PartialEq, Eq)]
pub struct BufferKey {
    pub(crate) name: u32,
    pub(crate) serial: u64,
}

impl BufferKey {
    /// The name of the object, while it isn't deleted.
    pub fn name(self) -> u32
        ensures { result ≡ self.name }
    {
        self.name
    }
}

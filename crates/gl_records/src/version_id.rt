/// The name of one version of a texture's image: what the image was between two writes to it.
#[derive(Clone, Copy, Debug, PartialEq, Eq)]
pub struct VersionId(pub u32);

//! The options of commands over images that no server uses.

/// An image, and its metadata file.
#[derive(Clone, Copy, Debug, PartialEq, Eq)]
pub struct ImageOptions<'a> {
    /// The image.
    pub image: &'a str,
    /// Its metadata file, if it is not beside it as `IMAGE.metadata`.
    pub metadata: Option<&'a str>,
}

/// How metadata is shown.
#[derive(Clone, Copy, Debug, PartialEq, Eq)]
pub enum DumpFormat {
    /// A line for each fact.
    Text,
    /// As a JSON object.
    Json,
}

/// Two images that are compared.
#[derive(Clone, Copy, Debug, PartialEq, Eq)]
pub struct VerifyOptions<'a> {
    pub local: ImageOptions<'a>,
    pub peer: &'a str,
}

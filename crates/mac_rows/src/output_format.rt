/// How a report is printed.
#[derive(Clone, Copy, Debug, PartialEq, Eq)]
pub enum OutputFormat {
    /// Lines of text.
    Text,
    /// An object of JSON on a line of its own.
    Json,
}

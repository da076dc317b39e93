//! Which stores the words of a command line may ask for.

/// Where the tables of a run are kept.
#[derive(Clone, Copy, Debug, PartialEq, Eq)]
pub enum StoreChoice<'a> {
    /// In memory, in ordered maps.
    Plain,
    /// In memory, in SQL.
    Sqlite,
    /// In SQL, in the files of a folder.
    Files {
        folder: &'a str,
        /// Whether files of version 1 are taken over before they are opened.
        migrate: bool,
    },
}

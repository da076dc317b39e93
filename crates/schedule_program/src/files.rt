//! The three files of a folder, each with a service's tables in SQL.

ghost use Rattle.std.specs.Prelude.{◌≡◌, IfOk};

use sqlite::Start;
use std::alloc::AllocError;

/// The files `purchasing.db`, `warehouse.db` and `billing.db` of a folder, each with its log. What they hold when they
/// are opened, nobody can know; `O`, `S` and `A` stand for it.
pub struct FileStores<O: Start, S: Start, A: Start> {
    rt: HostRuntime,
    folder: String,
    orders: O,
    stocks: S,
    accounts: A,
}

/// Written by hand, so that a crate that owns such stores doesn't prove anew how each of their parts is dropped.
impl<O: Start, S: Start, A: Start> Drop for FileStores<O, S, A> {
    fn drop(self) {
        let FileStores {
            rt: _,
            folder: _folder,
            orders: _orders,
            stocks: _stocks,
            accounts: _accounts,
        } = self;
    }
}

impl<O: Start, S: Start, A: Start> FileStores<O, S, A> {
    /// Those of this folder. Nothing is opened yet; `starts` stand for what the three files hold.
    ///
    /// # Errors
    /// Where memory was refused.
    pub fn new(
        rt: HostRuntime,
        folder: &str,
        starts: (O, S, A),
    ) -> Result<FileStores<O, S, A>, AllocError>
        ensures { IfOk result (λ stores. stores.folder.bytes.items ≡ folder.now) }
    {
        let (orders, stocks, accounts) = starts;
        Ok(FileStores {
            rt,
            folder: String::from_str(rt.alloc(), folder)?,
            orders,
            stocks,
            accounts,
        })
    }

    /// The folder, and what stands for the contents of its three files.
    pub fn into_parts(self) -> (HostRuntime, String, (O, S, A))
        ensures folder { result.1 ≡ self.folder }
        ensures orders { result.2.0 ≡ self.orders }
        ensures stocks { result.2.1 ≡ self.stocks }
        ensures accounts { result.2.2 ≡ self.accounts }
    {
        // Taken apart here: a type with a `Drop` of its own can't be matched by parts outside of its `impl`.
        let FileStores {
            rt,
            folder,
            orders,
            stocks,
            accounts,
        } = self;
        (rt, folder, (orders, stocks, accounts))
    }
}

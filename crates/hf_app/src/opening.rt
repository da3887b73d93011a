//! A file as a store.

ghost use Rattle.std.specs.Prelude.{◌≤◌, length};
ghost use Rattle.hf_base.specs.declared.limits.TheConstants.{FILE};
ghost use Rattle.hf_app.specs.Opening.{Opens};

use crate::stopping::Stop;
use hf_base::OpenFault;
use hf_read::open_store;
use hf_store::Store;
use std::alloc::Global;

/// The store that the file of this source denotes.
pub fn opened<'a>(alloc: Global, source: u32, file: &'a [u8]) -> Result<Store<'a>, Stop>
    requires { length file.now ≤ FILE }
    ensures { Opens source file.now result }
{
    match open_store(alloc, file) {
        Ok(store) => Ok(store),
        Err(OpenFault::Unfit(why)) => Err(Stop::Unfit { source, why }),
        Err(OpenFault::NoMemory) => Err(Stop::NoMemory),
    }
}

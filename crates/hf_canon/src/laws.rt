//! Laws of what canonical files denote. Each is the contract of a function that does nothing.

ghost use Rattle.hf_canon.specs.Laws.{CanonDenotes, EqualFilesEqualStores};

/// The canonical file of a valid store denotes that store.
pub fn canonical_file_denotes_its_store()
    ensures { CanonDenotes }
{}

/// Two valid stores with one canonical file are equal.
pub fn equal_files_equal_stores()
    ensures { EqualFilesEqualStores }
{}

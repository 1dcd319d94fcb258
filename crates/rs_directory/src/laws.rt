//! The law of directories, over their definition alone.
//!
//! The function here has no effect: its contract is the law, which the check proves. Proofs cite its lemma, in
//! `proofs/OneDirectory.antt`.
ghost use Rattle.rs_directory.specs.Laws.{DirectoryReadsOnce};

/// Bytes are the directory of at most one header and of at most one list of entries per kind.
pub fn directory_reads_once()
    ensures { DirectoryReadsOnce }
{}

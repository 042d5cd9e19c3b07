//! The sockets of runs.
ghost use Rattle.std.specs.Prelude.{◌≡◌, ◌++◌, IfOk, string_bytes, codes, decimal};

use host_base::RunId;
use std::alloc::{AllocError, Global};
use std::os::unix::fs::FileTypeExt;
use std::rt::Files;
use std::{fs, io};

/// Where a run's socket is, in the folder of the runs.
pub fn socket_path(alloc: Global, dir: &str, run: RunId) -> Result<String, AllocError>
    ensures { IfOk result (λ path. string_bytes path
        ≡ dir.now ++ codes "/run-" ++ decimal run.0 ++ codes ".sock") }
{
    let number = run.0;
    format!(in alloc; "{dir}/run-{number}.sock")
}

/// Whether a socket file is there.
pub fn is_socket<R: Files>(rt: &R, path: &str) -> bool {
    match fs::symlink_metadata(rt, path) {
        Ok(there) => there.file_type().is_socket(),
        Err(_) => false,
    }
}

/// Removes a socket file, if one is there. What isn't a socket is left alone.
pub fn remove_socket<R: Files>(rt: &R, path: &str) {
    if is_socket(rt, path) {
        let _ = fs::remove_file(rt, path);
    }
}

/// Whether memory ran out.
pub fn is_memory(error: &io::Error) -> bool {
    error.kind() == io::ErrorKind::OutOfMemory
}

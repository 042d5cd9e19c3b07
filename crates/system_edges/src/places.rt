//! Where the sockets of runs, the programs of applications, and the folders and logs of grains are, beside a server's file.
ghost use Rattle.std.specs.Prelude.{◌≡◌, ◌++◌, IfOk, string_bytes, codes, decimal};

use crate::socket::socket_path;
use host_base::{AppId, GrainId, RunId};
use std::alloc::{AllocError, Global};
use std::env::Env;
use std::fs::DirBuilder;
use std::os::unix::fs::DirBuilderExt;
use std::rt::Files;
use std::{env, fs, io};

/// Who may look into a folder that is made: the server's user alone.
const OWN: u32 = 0o700;

/// The folders beside a server's file: of the sockets of runs, of the programs of applications, and of the grains.
#[derive(Drop)]
pub struct Places {
    runs: String,
    apps: String,
    grains: String,
}

/// The program of an application, in the folder of the programs.
pub fn program_path(alloc: Global, dir: &str, app: AppId) -> Result<String, AllocError>
    ensures { IfOk result (λ path. string_bytes path ≡ dir.now ++ codes "/" ++ decimal app.0) }
{
    let number = app.0;
    format!(in alloc; "{dir}/{number}")
}

/// The folder of a grain, in the folder of the grains.
pub fn folder_path(alloc: Global, dir: &str, grain: GrainId) -> Result<String, AllocError>
    ensures { IfOk result (λ path. string_bytes path ≡ dir.now ++ codes "/" ++ decimal grain.0) }
{
    let folder = grain.0;
    format!(in alloc; "{dir}/{folder}")
}

/// The log of a grain, beside its folder: a program could exchange what is in its folder for a link to another file.
pub fn log_path(alloc: Global, dir: &str, grain: GrainId) -> Result<String, AllocError>
    ensures { IfOk result
        (λ path. string_bytes path ≡ dir.now ++ codes "/" ++ decimal grain.0 ++ codes ".log") }
{
    let log = grain.0;
    format!(in alloc; "{dir}/{log}.log")
}

// Makes a folder, where nothing is in its place yet.
fn make_folder<R: Files>(rt: &R, path: &str) -> io::Result<()> {
    match DirBuilder::new().mode(OWN).create(rt, path) {
        Err(error) if error.kind() != io::ErrorKind::AlreadyExists => Err(error),
        _ => Ok(()),
    }
}

// A file's path from the root of all files, where the folder that this program works in is known.
fn whole_path<R: Env + Alloc>(rt: &R, alloc: Global, file: &str) -> Result<String, AllocError> {
    match env::current_dir(rt) {
        Ok(here) => {
            let path = here.join(alloc, file)?;
            String::from_str(alloc, path.as_str())
        }
        Err(_) => String::from_str(alloc, file),
    }
}

impl Places {
    /// Those beside a file. Nothing is made yet.
    pub fn beside<R: Env + Alloc>(rt: &R, alloc: Global, file: &str) -> Result<Self, AllocError> {
        let file = whole_path(rt, alloc, file)?;
        Ok(Places {
            runs: format!(in alloc; "{file}.runs")?,
            apps: format!(in alloc; "{file}.apps")?,
            grains: format!(in alloc; "{file}.grains")?,
        })
    }

    /// Makes the folders of the sockets and of the grains. Where one can't be made no run is started, which is answered to whoever
    /// asks for one.
    pub fn make<R: Files>(&self, rt: &R) {
        let _ = make_folder(rt, self.runs.as_str());
        let _ = make_folder(rt, self.grains.as_str());
    }

    /// The folder of the sockets.
    pub fn runs(&self) -> &str {
        self.runs.as_str()
    }

    /// Where a run's socket is.
    pub fn socket(&self, alloc: Global, run: RunId) -> Result<String, AllocError> {
        socket_path(alloc, self.runs.as_str(), run)
    }

    /// The program of an application: the one that stands in the folder of the programs, or this program itself.
    pub fn program<R: Files + Alloc>(
        &self,
        rt: &R,
        alloc: Global,
        app: AppId,
    ) -> io::Result<String> {
        let path = program_path(alloc, self.apps.as_str(), app)?;
        if fs::exists(rt, path.as_str())? {
            return Ok(path);
        }
        let own = env::current_exe(rt)?;
        Ok(String::from_str(alloc, own.as_str())?)
    }

    /// The folder of a grain, which is made where it isn't there.
    pub fn folder<R: Files>(&self, rt: &R, alloc: Global, grain: GrainId) -> io::Result<String> {
        let path = folder_path(alloc, self.grains.as_str(), grain)?;
        make_folder(rt, path.as_str())?;
        Ok(path)
    }

    /// Where the log of a grain is.
    pub fn log(&self, alloc: Global, grain: GrainId) -> Result<String, AllocError> {
        log_path(alloc, self.grains.as_str(), grain)
    }
}

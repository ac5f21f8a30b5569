//! What is wanted of a run.

use ae_base::Memory;
use ae_outside::MemFiles;
use std::alloc::Global;

/// What a run is to end with. `None` stands where nothing is said yet.
#[derive(Drop)]
pub struct Wanted {
    pub status: Option<u8>,
    pub report: Option<Vec<u8>>,
    pub any_report: bool,
    pub told: Option<Vec<u8>>,
    pub files: MemFiles,
    pub any_file: bool,
    /// The names of the files that are looked at.
    pub names: Vec<String>,
}

impl Wanted {
    /// No file, no advisor, and nothing is said yet.
    pub fn new(alloc: Global) -> Wanted {
        Wanted {
            status: None,
            report: None,
            any_report: false,
            told: None,
            files: MemFiles::new(alloc),
            any_file: false,
            names: Vec::new(alloc),
        }
    }

    /// Nothing is said yet of a further run. The files are to stay as they are.
    pub fn renew(&mut self) {
        self.status = None;
        self.report = None;
        self.told = None;
        self.any_report = false;
        self.any_file = false;
    }

    /// The file of the name is looked at.
    pub fn look_at(&mut self, name: String) -> Result<(), Memory> {
        if !self.names.contains(&name) {
            self.names.push(name)?;
        }
        Ok(())
    }

    /// The file of the name is to hold these bytes.
    pub fn hold(&mut self, name: String, bytes: &[u8]) -> Result<(), Memory> {
        self.files.put(&name, bytes)?;
        self.look_at(name)
    }
}

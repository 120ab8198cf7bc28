//! Files of the system.
ghost use Rattle.std.specs.Prelude.{◌≡◌, None, IsSome};

use lf_base::{Failed, Files};
use std::fs::{self, File};
use std::io::Read;

/// The files that the process can open, by their paths. It tells nothing of what they hold.
#[derive(Drop)]
pub struct HostFiles<'a> {
    rt: &'a HostRuntime,
    file: Option<File>,
    faults: u64,
    opens: u64,
}

impl<'a> HostFiles<'a> {
    /// No file is open, and no call was made.
    pub fn new(rt: &'a HostRuntime) -> HostFiles<'a>
        ensures faults { result.faults ≡ 0 }
        ensures opens { result.opens ≡ 0 }
    {
        HostFiles {
            rt,
            file: None,
            faults: 0,
            opens: 0,
        }
    }
}

impl Files for HostFiles<'_> {
    ghost held = { λ _ _. None };

    ghost left = { λ _. None };

    ghost faults = { λ s. s.faults };

    ghost opens = { λ s. s.opens };

    ghost is_open = { λ s. IsSome s.file };

    fn open(&mut self, name: &str) -> Result<(), Failed> {
        self.opens += 1;
        match fs::open(self.rt, name) {
            Ok(file) => {
                self.file = Some(file);
                Ok(())
            }
            Err(_) => {
                self.faults += 1;
                Err(Failed)
            }
        }
    }

    fn read(&mut self, buf: &mut [u8]) -> Result<usize, Failed> {
        match self.file.as_mut().unwrap().read(buf) {
            Ok(count) => Ok(count),
            Err(_) => {
                self.faults += 1;
                Err(Failed)
            }
        }
    }
}

#[cfg(test)]
mod tests {
    use super::*;
    use std::test::Fail;

    #[test]
    fn reads_a_file_to_its_end_and_counts_a_missing_one(rt: HostRuntime) -> Result<(), Fail> {
        fs::write(&rt, "host_files_test", "groups:\n")?;
        let mut files = HostFiles::new(&rt);
        assert!(rt; files.open("host_files_test").is_ok());
        let mut buf = [0u8; 16];
        assert_eq!(rt; files.read(&mut buf), Ok(8));
        assert!(rt; buf.starts_with(b"groups:\n"));
        assert_eq!(rt; files.read(&mut buf), Ok(0));
        assert_eq!(rt; files.open("no_such_file"), Err(Failed));
        assert_eq!(rt; files.faults, 1);
        assert_eq!(rt; files.opens, 2);
        Ok(())
    }
}

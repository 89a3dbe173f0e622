use crate::arguments::Arguments;
use std::fs::{File, OpenFile};
use std::io::{Error, ErrorKind, Read, Write};
use std::path::Path;
use std::rt::Files;
use std::{fs, io};

/// The most bytes that a drive stands on: 1,024 blocks of 64 bytes, and what is less than a block.
const MOST: u64 = 1024 * 64 + 63;

/// A file that keeps the drive of a rig from one run of a program to the next. For as long as the
/// value lives, no other run has an image file in the same folder.
#[derive(Drop)]
pub struct ImageFile {
    /// The path of the file: of a link's, that of the file that it leads to.
    pub path: String,
    /// The folder that the file stands in, which is locked.
    folder: File,
}

/// The folder that the file of a path stands in.
fn folder_of(path: &str) -> &str {
    match Path::new(path).parent() {
        Some(folder) if folder.as_str() != "" => folder.as_str(),
        Some(_) => ".",
        None => path,
    }
}

/// Writes a new file, or a file anew, and flushes it to the disk.
fn write_flushed<R: Files>(rt: &R, path: &str, bytes: &[u8]) -> io::Result<()> {
    let mut file = fs::create(rt, path)?;
    file.write_all(bytes)?;
    file.sync_all()
}

impl ImageFile {
    /// The image file of this name, whether there is one or not; where the name is a link's, the
    /// file that it leads to. Where another run has an image file in the same folder, it is waited
    /// for.
    pub fn lock<R: Files<File = File> + AllocGlobal>(
        rt: &R,
        arguments: &Arguments,
        name: &str,
    ) -> io::Result<ImageFile> {
        arguments.check_name(name)?;
        let path = match fs::canonicalize(rt, name) {
            Ok(path) => path.into_string(),
            Err(error) if error.kind() == ErrorKind::NotFound => {
                let mut path = String::new(rt.alloc());
                path.push_str(name)?;
                path
            }
            Err(error) => return Err(error),
        };
        let folder = File::open(rt, folder_of(path.as_str()))?;
        folder.lock()?;
        Ok(ImageFile { path, folder })
    }

    /// All bytes of the file; none where there is no such file. One that is larger than any drive
    /// is refused.
    pub fn read<R: Files + AllocGlobal>(&self, rt: &R) -> io::Result<Option<Vec<u8>>> {
        let file = match fs::open(rt, self.path.as_str()) {
            Ok(file) => file,
            Err(error) if error.kind() == ErrorKind::NotFound => return Ok(None),
            Err(error) => return Err(error),
        };
        let mut bytes = Vec::new(rt.alloc());
        file.take(MOST + 1).read_to_end(&mut bytes)?;
        if bytes.len() as u64 > MOST {
            let message = "it is larger than a drive of 1,024 blocks";
            return Err(Error::new(ErrorKind::InvalidData, message));
        }
        Ok(Some(bytes))
    }

    /// Puts these bytes in the place of the file's: they are written to a new file beside it, named
    /// as it is with `.new` behind, flushed to the disk, and the new file takes its place. Whenever
    /// the program or the machine stops, the one or the other stands whole. Where this fails, the
    /// old one stands, unless only the flush of the folder failed.
    pub fn replace<R: Files + AllocGlobal>(&self, rt: &R, bytes: &[u8]) -> io::Result<()> {
        let path = self.path.as_str();
        let new = format!(in rt.alloc(); "{path}.new")?;
        write_flushed(rt, new.as_str(), bytes)?;
        if let Ok(old) = fs::metadata(rt, path) {
            fs::set_permissions(rt, new.as_str(), old.permissions())?;
        }
        fs::rename(rt, new.as_str(), path)?;
        self.folder.sync_all()
    }
}

use crate::estate_folder::EstateFolder;
use crate::folders::{has_file, has_folder, remove_any, sync_folder};
use folder_files::{FileError, FileSystem, file_name};
use row_core::Bytes;
use std::fs::{File, OpenFile};
use std::io::Write;
use std::{fs, io};

/// Commits: a folder with the job's text in `job.json` and the committed text in `rows.csv`. Both are
/// written aside and synced, and the folder gets its place by one rename, which is made last. An id
/// that stands already is refused: no commit takes another's place.
pub fn commit<R: FileSystem>(
    folder: &mut EstateFolder<'_, R>,
    id: &Bytes,
    job: &Bytes,
    text: &Bytes,
) -> Result<(), FileError> {
    let id = file_name(id)?;
    let place = folder.place(folder.out.as_str(), id)?;
    let aside = folder.aside(folder.out.as_str(), id)?;
    let job_path = folder.place(aside.as_str(), "job.json")?;
    let text_path = folder.place(aside.as_str(), "rows.csv")?;
    folder.prepare_out()?;
    let rt = &folder.rt;
    let written = write_files(
        rt,
        aside.as_str(),
        (job_path.as_str(), job),
        (text_path.as_str(), text),
    )
    .and_then(|()| give_place(rt, aside.as_str(), place.as_str(), folder.out.as_str()));
    if written.is_err() {
        let _ = remove_any(rt, aside.as_str());
        return Err(FileError::Failed);
    }
    Ok(())
}

/// The job's text of an id's commit, if there is one. A folder that lacks one of the two files is an
/// error.
pub fn committed_job<R: FileSystem>(
    folder: &EstateFolder<'_, R>,
    id: &Bytes,
) -> Result<Option<Bytes>, FileError> {
    let rt = &folder.rt;
    let place = folder.place(folder.out.as_str(), file_name(id)?)?;
    if !has_folder(rt, place.as_str())? {
        return Ok(None);
    }
    let job_path = folder.place(place.as_str(), "job.json")?;
    let text_path = folder.place(place.as_str(), "rows.csv")?;
    if has_file(rt, job_path.as_str())? && has_file(rt, text_path.as_str())? {
        Ok(Some(Bytes::from_vec(fs::read(rt, job_path.as_str())?)))
    } else {
        Err(FileError::Failed)
    }
}

fn write_files<R: FileSystem>(
    rt: &R,
    aside: &str,
    job: (&str, &Bytes),
    text: (&str, &Bytes),
) -> io::Result<()> {
    fs::create_dir(rt, aside)?;
    write_synced(rt, job.0, job.1)?;
    write_synced(rt, text.0, text.1)?;
    sync_folder(rt, aside)
}

fn give_place<R: FileSystem>(rt: &R, aside: &str, place: &str, out: &str) -> io::Result<()> {
    if has_folder(rt, place)? {
        return Err(io::Error::from(io::ErrorKind::AlreadyExists));
    }
    fs::rename(rt, aside, place)?;
    sync_folder(rt, out)
}

fn write_synced<R: FileSystem>(rt: &R, path: &str, bytes: &Bytes) -> io::Result<()> {
    let mut file = File::create(rt, path)?;
    file.write_all(bytes.as_slice())?;
    file.sync_all()
}

//! Files of the folder that the test runs in.
use super::FileDisk;
use std::fs::{self, File, OpenOptions};
use std::io::ErrorKind;
use std::os::unix::fs::{OpenOptionsExt, PermissionsExt};
use std::process::Abort;
use std::test::Fail;

#[test]
fn a_file_is_read_and_written(rt: HostRuntime) -> Result<(), Fail> {
    let name = "disk_test.soc";
    let mut disk = FileDisk::open(&rt, name)?;
    assert_eq!(rt; disk.len()?, 0);
    disk.write_at(3, b"abc")?;
    disk.write_at(4, b"x")?;
    disk.sync()?;
    let other = FileDisk::open(&rt, name);
    assert!(rt; other.is_err_and(|error| error.kind() == ErrorKind::WouldBlock));
    drop(disk);
    let disk = FileDisk::open(&rt, name)?;
    fs::remove_file(&rt, name)?;
    assert_eq!(rt; disk.len()?, 6);
    let mut into = [9; 8];
    assert_eq!(rt; disk.read_at(0, &mut into)?, 6);
    assert_eq!(rt; &into[..6], b"\0\0\0axc".as_slice());
    assert_eq!(rt; disk.read_at(5, &mut into[..1])?, 1);
    assert_eq!(rt; disk.read_at(6, &mut into)?, 0);
    assert_eq!(rt; disk.read_at(0, &mut [])?, 0);
    Ok(())
}

#[test]
fn a_file_that_is_made_is_private_and_another_keeps_its_mode(rt: HostRuntime) -> Result<(), Fail> {
    let name = "mode_test.soc";
    drop(FileDisk::open(&rt, name)?);
    let made = fs::metadata(&rt, name)?.permissions().mode();
    fs::remove_file(&rt, name)?;
    drop(
        OpenOptions::new()
            .write(true)
            .create(true)
            .mode(0o640)
            .open(&rt, name)?,
    );
    drop(FileDisk::open(&rt, name)?);
    let kept = fs::metadata(&rt, name)?.permissions().mode();
    fs::remove_file(&rt, name)?;
    assert_eq!(rt; made & 0o777, 0o600);
    assert_eq!(rt; kept & 0o777, 0o640);
    Ok(())
}

#[test]
fn no_sync_succeeds_after_one_that_failed(rt: HostRuntime) -> Result<(), Fail> {
    let name = "lost_test.soc";
    let mut disk = FileDisk::open(&rt, name)?;
    let good = disk.file;
    // The system refuses to sync this one.
    disk.file = File::open(&rt, "/dev/null")?;
    assert!(rt; disk.sync().is_err());
    disk.file = good;
    assert!(rt; disk.sync().is_err());
    drop(disk);
    let mut disk = FileDisk::open(&rt, name)?;
    disk.sync()?;
    fs::remove_file(&rt, name)?;
    Ok(())
}

#[test]
fn only_a_regular_file_is_opened(rt: HostRuntime) {
    for name in ["/dev/null", ".", "no_folder/disk_test.soc", ""] {
        assert!(rt; FileDisk::open(&rt, name).is_err(), "{name}");
    }
}

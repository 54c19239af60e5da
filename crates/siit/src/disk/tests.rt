use super::*;
use std::fs;
use std::os::unix::fs::symlink;
use std::test::Fail;

// Two files are kept apart, whether their bytes are gathered or written at once, and a file that is there is made
// empty.
#[test]
fn appended_bytes_are_read(rt: HostRuntime) -> Result<(), Fail> {
    let name = "disk_files_test.bin";
    let large = vec![in rt.alloc(); 6u8; 1 << 15]?;
    let mut files = DiskFiles::new(rt.clone()?, rt.alloc(), &[]);
    let mut into = [0u8; 4];
    assert!(rt; files.read("no_such_file.bin", 0, &mut into).is_err());
    files.create(name)?;
    assert_eq!(rt; files.read(name, 0, &mut into)?, 0);
    assert_eq!(rt; files.append(name, &[1, 2, 3])?, 3);
    assert_eq!(rt; files.append(name, &[4, 5])?, 2);
    assert_eq!(rt; files.read(name, 1, &mut into)?, 4);
    assert_eq!(rt; into, [2, 3, 4, 5]);
    assert_eq!(rt; files.append(name, &large)?, 1 << 15);
    assert_eq!(rt; files.append(name, &[7])?, 1);
    assert_eq!(rt; files.read(name, 4, &mut into)?, 4);
    assert_eq!(rt; into, [5, 6, 6, 6]);
    let other = "disk_files_other.bin";
    assert_eq!(rt; files.append(other, &[8, 9])?, 2);
    assert_eq!(rt; files.read(name, 0, &mut into)?, 4);
    assert_eq!(rt; into, [1, 2, 3, 4]);
    assert_eq!(rt; fs::metadata(&rt, other)?.len(), 0);
    assert_eq!(rt; files.read(other, 0, &mut into)?, 2);
    assert_eq!(rt; into, [8, 9, 3, 4]);
    files.create(other)?;
    assert_eq!(rt; files.read(other, 0, &mut into)?, 0);
    files.flush()?;
    assert_eq!(rt; fs::metadata(&rt, other)?.len(), 0);
    fs::remove_file(&rt, other)?;
    assert_eq!(rt; fs::metadata(&rt, name)?.len(), 6 + (1 << 15));
    assert!(rt; files.append("no_such_folder/file.bin", &[1]).is_err());
    fs::remove_file(&rt, name)?;
    Ok(())
}

// Of two names of one file neither is made anew, whatever leads from one to the other.
#[test]
fn one_file_of_two_names_is_kept(rt: HostRuntime) -> Result<(), Fail> {
    let names = vec![in rt.alloc();
        String::from_str(rt.alloc(), "twin_kept.bin")?,
        String::from_str(rt.alloc(), "./twin_kept.bin")?,
        String::from_str(rt.alloc(), "twin_hard.bin")?,
        String::from_str(rt.alloc(), "twin_soft.bin")?,
        String::from_str(rt.alloc(), "/dev/null")?,
        String::from_str(rt.alloc(), "/dev/../dev/null")?,
    ]?;
    fs::write(&rt, "twin_kept.bin", &[1u8, 2, 3])?;
    fs::hard_link(&rt, "twin_kept.bin", "twin_hard.bin")?;
    symlink(&rt, "twin_kept.bin", "twin_soft.bin")?;
    let mut files = DiskFiles::new(rt.clone()?, rt.alloc(), &names);
    for name in [
        "twin_kept.bin",
        "./twin_kept.bin",
        "twin_hard.bin",
        "twin_soft.bin",
    ] {
        assert!(rt; files.create(name).is_err(), "{name}");
    }
    assert_eq!(rt; fs::metadata(&rt, "twin_kept.bin")?.len(), 3);
    files.create("/dev/null")?;
    fs::remove_file(&rt, "twin_hard.bin")?;
    fs::remove_file(&rt, "twin_soft.bin")?;
    fs::remove_file(&rt, "twin_kept.bin")?;
    Ok(())
}

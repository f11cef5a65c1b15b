// The file that says which folder it is.
use als_folder::{Folder, FolderId};
use std::fs;
use std::fs::File;
use std::os::unix::fs::MetadataExt;
use std::process::Abort;
use std::random::RandomSource;
use std::rt::Files;

/// A folder has no id, one that is drawn, and another one; a file of another length says none. `None`: allocation
/// failed, or the system gave no random bytes.
fn has_ids<R: Abort + AllocGlobal + Files<File = File> + RandomSource>(rt: &R) -> Option<()> {
    let folder = Folder::hold(rt, "named").ok()?;
    assert!(rt; folder.id(rt).ok()? == None);
    // What a stop left is taken away.
    fs::write(rt, "named/id.new", b"half").ok()?;
    let drawn = FolderId::draw(rt).ok()?;
    for id in [drawn, FolderId { bytes: [7; 16] }] {
        folder.make_id(rt, id).ok()?;
        assert!(rt; folder.id(rt).ok()? == Some(id));
        assert!(rt; fs::read(rt, "named/id").ok()?.as_slice() == id.bytes.as_slice());
        assert!(rt; fs::metadata(rt, "named/id").ok()?.mode() & 0o777 == 0o600);
        assert!(rt; fs::metadata(rt, "named/id.new").is_err());
    }
    assert!(rt; FolderId::draw(rt).ok()? != drawn);
    for text in ["", "fifteen bytes..", "seventeen bytes.."] {
        fs::write(rt, "named/id", text).ok()?;
        assert!(rt; folder.id(rt).ok()? == None);
    }
    Some(())
}

/// The same in a folder of its own.
fn has_ids_anew<R: Abort + AllocGlobal + Files<File = File> + RandomSource>(rt: &R) -> Option<()> {
    fs::create_dir(rt, "named").ok()?;
    let outcome = has_ids(rt);
    fs::remove_dir_all(rt, "named").ok()?;
    outcome
}

#[test]
fn a_folder_has_an_id(rt: HostRuntime) {
    assert!(rt; has_ids_anew(&rt).is_some() || has_ids_anew(&rt).is_some());
}

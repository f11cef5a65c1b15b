// The file that makes a folder a primary's.
use als_folder::{Fault, Folder, Part, Role, Trouble, Wrong};
use std::fs;
use std::fs::File;
use std::os::unix::fs::MetadataExt;
use std::process::Abort;
use std::rt::Files;

const BAD_ROLE: Fault = Fault::Device(Trouble {
    part: Part::Role,
    wrong: Wrong::BadRole,
});

/// The folder's role is this one, and its file says so. `None`: allocation failed.
fn expect_role<R: Abort + AllocGlobal + Files<File = File>>(
    rt: &R,
    folder: &Folder,
    epoch: u32,
    text: &[u8],
) -> Option<()> {
    folder.make_role(rt, Role { epoch }).ok()?;
    assert!(rt; folder.role(rt).ok()? == Some(Role { epoch }));
    assert!(rt; fs::read(rt, "primary/role").ok()?.as_slice() == text);
    assert!(rt; fs::metadata(rt, "primary/role").ok()?.mode() & 0o777 == 0o600);
    assert!(rt; fs::metadata(rt, "primary/role.new").is_err());
    Some(())
}

/// A file that says anything else is refused. `None`: allocation failed.
fn expect_none<R: Abort + AllocGlobal + Files<File = File>>(
    rt: &R,
    folder: &Folder,
    text: &[u8],
) -> Option<()> {
    fs::write(rt, "primary/role", text).ok()?;
    let refused = folder.role(rt).err();
    assert!(rt;
        refused == Some(BAD_ROLE) || refused == Some(Fault::Memory),
        "{text:?}"
    );
    Some(())
}

/// A folder has a role, another one, something that is none, and none again. `None`: allocation
/// failed.
fn has_roles<R: Abort + AllocGlobal + Files<File = File>>(rt: &R) -> Option<()> {
    let folder = Folder::hold(rt, "primary").ok()?;
    assert!(rt; folder.role(rt).ok()? == None);
    // What a stop left is taken away.
    fs::write(rt, "primary/role.new", b"primary ep").ok()?;
    expect_role(rt, &folder, 0, b"primary epoch=0\n")?;
    expect_role(rt, &folder, 32, b"primary epoch=32\n")?;
    let rows: [&[u8]; 7] = [
        b"",
        b"primary epoch=",
        b"primary epoch=1",
        b"primary epoch=01\n",
        b"primary epoch=33\n",
        b"primary epoch=1\n\n",
        b"a line that is longer than any role is",
    ];
    for text in rows {
        expect_none(rt, &folder, text)?;
    }
    expect_role(rt, &folder, 1, b"primary epoch=1\n")?;
    folder.remove_role(rt).ok()?;
    assert!(rt; folder.role(rt).ok()? == None);
    // Where there is none, none is taken away.
    folder.remove_role(rt).ok()?;
    Some(())
}

/// The same in a folder of its own.
fn has_roles_anew<R: Abort + AllocGlobal + Files<File = File>>(rt: &R) -> Option<()> {
    fs::create_dir(rt, "primary").ok()?;
    let outcome = has_roles(rt);
    fs::remove_dir_all(rt, "primary").ok()?;
    outcome
}

#[test]
fn a_folder_has_a_role(rt: HostRuntime) {
    assert!(rt; has_roles_anew(&rt).is_some() || has_roles_anew(&rt).is_some());
}

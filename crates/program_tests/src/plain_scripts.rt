use fault_script::{Script, read};
use nim_base::Text;
use std::alloc::Global;
use std::test::Fail;
use world_run::plain_replies;

/// Scripts and what each is answered, worked out by hand.
const SCRIPTS: [(&str, &str); 6] = [
    (
        "genesis 1,2,3\nnew c L1 =a\nappend c L1 1 =b\nappend c L1 2 =c\nlatest c L1\nat c L1 0\nat c L1 2\nend\n",
        "view 0 1,2,3\nok L1 0 =a\nok L1 1 =b\nok L1 2 =c\nok L1 2 =c\nok L1 0 =a\nok L1 2 =c\n",
    ),
    ("genesis 1\nnew c L1 =\nend\n", "view 0 1\nok L1 0 =\n"),
    (
        "genesis 1,2,3\nlatest c L9\nend\n",
        "view 0 1,2,3\nabsent L9\n",
    ),
    (
        "genesis 1,2,3\nnew c L1 =a\nappend c L1 1 =b\nappend d L1 1 =z\nappend d L1 3 =z\nat d L1 9\nend\n",
        "view 0 1,2,3\nok L1 0 =a\nok L1 1 =b\nconflict L1 1 =b\ngap L1 2\ngap L1 9\n",
    ),
    // A ledger of its own for each label, also where one begins the other; and a ledger that nobody made has none.
    (
        "genesis 7,64\nnew c L =a\nnew c LL =b\nappend c L 1 =c\nlatest d LL\nappend c M 1 =x\nlatest c L\nrestart\nlatest c LL\nend\n",
        "view 0 7,64\nok L 0 =a\nok LL 0 =b\nok L 1 =c\nok LL 0 =b\ngap M 0\nok L 1 =c\nok LL 0 =b\n",
    ),
    // What isn't done at once, and what is lost or lied about, isn't known here.
    (
        "genesis 1\nnew c L =a\nbegin o append c L 1 =b\nlose request 1 1\nstore hide L 0\nraw show 1 L\nfinish o\nlatest c L\nend\n",
        "view 0 1\nok L 0 =a\nok L 0 =a\n",
    ),
];

/// All reply lines, one behind the other.
fn replies_to(alloc: Global, script: &Script) -> Result<Text, Fail> {
    let mut all = Text::of(alloc, b"")?;
    for line in &plain_replies(alloc, script)? {
        all.push(line.bytes())?;
    }
    Ok(all)
}

#[test]
fn plain_scripts_have_these_replies(rt: HostRuntime) -> Result<(), Fail> {
    let alloc = rt.alloc();
    for (text, lines) in SCRIPTS {
        let script = read(alloc, text.as_bytes());
        assert!(rt; script.is_ok());
        if let Ok(script) = script {
            let said = replies_to(alloc, &script)?;
            assert_eq!(rt; said.bytes(), lines.as_bytes());
        }
    }
    Ok(())
}

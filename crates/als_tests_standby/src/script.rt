use als_script::{
    CombinedLine, Explanation, FIRST_OF_MAKE, FIRST_OF_SIM, LeaseLine, RECORD_FORMS, STEP_FORMS,
    StepLine, Wanted, explain,
};

// A line's first wrong word, and what is wanted there; (0, End) of a good line.
fn wrong(line: &str, forms: &[&'static str]) -> (usize, Wanted) {
    match explain(line, forms) {
        Some(Explanation { word, wanted, .. }) => (word, wanted),
        None => (0, Wanted::End),
    }
}

const NUMBER_64: Wanted = Wanted::Number {
    label: "",
    bits: 64,
};

const NUMBER_32: Wanted = Wanted::Number {
    label: "",
    bits: 32,
};

const NUMBER_8: Wanted = Wanted::Number { label: "", bits: 8 };

#[test]
fn a_wrong_word_is_found(rt: HostRuntime) {
    let steps: [(&str, (usize, Wanted)); 17] = [
        ("feed 16 108", (0, Wanted::End)),
        ("feed 16", (3, NUMBER_64)),
        ("feed 16 x", (3, NUMBER_64)),
        ("feed 16 +5", (3, NUMBER_64)),
        ("feed 16 17 18", (4, Wanted::End)),
        ("feed  16 17", (2, NUMBER_64)),
        ("fed 16 17", (1, Wanted::Command)),
        ("lends 0 1", (1, Wanted::Command)),
        ("recall 4294967296", (2, NUMBER_32)),
        ("lend 0 1", (0, Wanted::End)),
        ("hand 0", (3, NUMBER_64)),
        ("read 0 256", (3, NUMBER_8)),
        ("crash", (2, Wanted::Word("old"))),
        ("crash 0 255 1", (0, Wanted::End)),
        ("crash 0 256", (3, NUMBER_8)),
        ("fail disk 1", (2, Wanted::Word("log"))),
        ("show log 16", (0, Wanted::End)),
    ];
    for (line, expected) in steps {
        assert!(rt; wrong(line, &STEP_FORMS) == expected);
    }
}

#[test]
fn a_wrong_record_line_is_explained(rt: HostRuntime) {
    let lines: [(&str, (usize, Wanted)); 5] = [
        ("u 1 0 0 - aa", (0, Wanted::End)),
        ("u 1 0 0 - AA", (6, Wanted::Image)),
        ("u 1 0 0 aa", (6, Wanted::Image)),
        ("u 1 0 x - aa", (4, NUMBER_8)),
        ("commit", (2, NUMBER_32)),
    ];
    for (line, expected) in lines {
        assert!(rt; wrong(line, &RECORD_FORMS) == expected);
    }
    assert!(rt; wrong("pages x", &FIRST_OF_MAKE) == (2, NUMBER_32));
    let label = Wanted::Number {
        label: "log=",
        bits: 64,
    };
    assert!(rt; wrong("world pages=4 frames=4", &FIRST_OF_SIM) == (3, label));
}

#[test]
fn a_line_is_what_it_says(rt: HostRuntime) {
    assert!(rt;
        matches!(
            StepLine::parse("feed 16 108"),
            Some(StepLine::Feed { from: 16, to: 108 })
        )
    );
    assert!(rt;
        matches!(
            StepLine::parse("feed 016 108"),
            Some(StepLine::Feed { from: 16, to: 108 })
        )
    );
    assert!(rt; matches!(StepLine::parse("undo"), Some(StepLine::UndoOne)));
    assert!(rt; StepLine::parse("undo ").is_none());
    assert!(rt; matches!(CombinedLine::parse("force"), Some(CombinedLine::Force)));
}

#[test]
fn a_lease_line_is_what_it_says(rt: HostRuntime) {
    assert!(rt;
        matches!(
            LeaseLine::parse("lend 3 1"),
            Some(LeaseLine::Lend { page: 3, slot: 1 })
        )
    );
    assert!(rt;
        matches!(
            LeaseLine::parse("redo 1"),
            Some(LeaseLine::Redo { slot: 1 })
        )
    );
    assert!(rt;
        matches!(
            LeaseLine::parse("hand 1 0"),
            Some(LeaseLine::Hand { from: 1, to: 0 })
        )
    );
    assert!(rt;
        matches!(
            LeaseLine::parse("give 0"),
            Some(LeaseLine::Give { slot: 0 })
        )
    );
    assert!(rt;
        matches!(
            LeaseLine::parse("drop 0"),
            Some(LeaseLine::Drop { slot: 0 })
        )
    );
    assert!(rt;
        matches!(
            StepLine::parse("recall 3"),
            Some(StepLine::Recall { page: 3 })
        )
    );
    assert!(rt; LeaseLine::parse("redo 18446744073709551616").is_none());
}

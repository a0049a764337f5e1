// Document 02, R-3: a begin with a summary, for each reason of its 15 and for what is no reason; 14 comes first. The summary is that of the
// file on standard input: production, k = 2 and so n = 738.
use crate::said::say_handed;
use counts::ConfigId;
use session::Settings;
use summary::Summary;

// Settings and summary stay two: each line says what was changed, and in which of them.
fn begin(rt: &impl Print, words: &str, settings: Settings, file: Summary) {
    say_handed(rt, words, settings.begin_with(file));
}

// With k = 0, 8 and 9 stands the n that is right for it. That identifiers differ is not looked at.
fn counts(rt: &impl Print, settings: Settings, file: Summary) {
    let mut f = file;
    f.configs = 0;
    f.lines = 12;
    begin(rt, "begun with k = 0, n = 12", settings, f);
    f.configs = 8;
    f.lines = 2916;
    begin(rt, "begun with k = 8, n = 2916", settings, f);
    f.configs = 9;
    f.lines = 3279;
    begin(rt, "begun with k = 9, n = 3279", settings, f);
    f.configs = 2;
    f.lines = 739;
    begin(rt, "begun with k = 2, n = 739", settings, f);
    f.lines = 686;
    begin(
        rt,
        "begun with k = 2, n = 686, as of a legacy file",
        settings,
        f,
    );
}

fn identifiers(rt: &impl Print, settings: Settings, file: Summary) {
    let high = ConfigId(16);
    let mut f = file;
    f.ids[0] = high;
    begin(rt, "begun with identifier 16 at N = 0", settings, f);
    f = file;
    f.ids[1] = high;
    begin(
        rt,
        "begun with identifier 16 at N = 1, the last",
        settings,
        f,
    );
    f.ids[1] = ConfigId(15);
    begin(rt, "begun with identifier 15 at N = 1", settings, f);
    f.ids[2] = high;
    begin(
        rt,
        "begun with identifier 16 at N = 2, which is not under k",
        settings,
        f,
    );
}

// Nothing else of a summary is looked at.
fn others(rt: &impl Print, settings: Settings, file: Summary) {
    let mut f = file;
    f.identity = 0;
    begin(rt, "begun with identity 0", settings, f);
    f.line5 = 65537;
    begin(rt, "begun with line 5 past the end", settings, f);
}

// That of a refused check.
fn zeros(rt: &impl Print, settings: Settings, file: Summary, text: &[u8]) {
    let mut wrong = settings;
    wrong.rule = 3;
    begin(rt, "begun with the file's summary, rule 3", wrong, file);
    begin(
        rt,
        "begun with a summary of zeros, rule 3",
        wrong,
        Summary::none(),
    );
    begin(
        rt,
        "begun with a summary of zeros",
        settings,
        Summary::none(),
    );
    let ended = settings.begin_with(Summary::none()).session;
    say_handed(
        rt,
        "after this verdict, acknowledged",
        ended.reply(text, 1, b""),
    );
}

pub(crate) fn run(rt: &impl Print, settings: Settings, file: Summary, text: &[u8]) {
    begin(rt, "begun with the file's summary", settings, file);
    counts(rt, settings, file);
    identifiers(rt, settings, file);
    others(rt, settings, file);
    zeros(rt, settings, file, text);
}

//! A session.
ghost use Rattle.std.specs.Prelude.{IfErr, ◌≤◌, Ok, IsTrue, length, ◌≢◌, ◌≡◌};
ghost use Rattle.grep_session.specs.{declared.fault.EditFault.TheVariants.Memory, Edits.Applies};
ghost use Rattle.grep_session.specs.Edits.{DropPattern, AddFile, AddMissing, SetContext, EditGives};
ghost use Rattle.grep_session.specs.Edits.{Splice, DropFile, SetFlag, SetSyntax, AddPatterns};
ghost use Rattle.grep_session.specs.{Edits.{ChangePattern, Edit}, Touched.{Touches, NeedsNoMemory}};
ghost use Rattle.grep_session.specs.Touched.{searched_by, parts_alone, TakesSteps, all_lines};
ghost use Rattle.grep_session.specs.Marks.{MarksGiven, all_known, new_watched};
ghost use Rattle.grep_session.specs.Working.{Sessions.LosesMarks, Again.{read_as, AreReadable}};
ghost use Rattle.{grep_session.specs.Working.Again.ReadsAgain, re_syntax.specs.Profile.most_states};

mod outputs;
mod queries;

use crate::change::Change;
use crate::columns::find_columns;
use crate::fault::EditFault;
use crate::kept::KeptFile;
use crate::marks::{know_all, lose_all, push_file, touch};
use crate::new_lines::NewLines;
use crate::options::{Effect, effect_of, is_same};
use crate::pattern_matchers::{read_matcher, read_matchers};
use crate::patterns::{add_texts, is_text, narrows, texts_of, too_many};
use crate::removal::{drop_column, exchange, put_back};
use crate::replaced_lines::{find_place, put_in};
use crate::search::search_new;
use grep_core::{Context, Flag, Options};
use line_marks::Mark;
use re_search::{Matcher, Meter, Syntax};
use std::alloc::Global;
use std::marker::Model;

/// Files and patterns, what the patterns find in the lines of the files, and a mark for each file. A
/// contract sees the inputs of grep, which are syntax, options, patterns and files, the marks, and how
/// many states each pattern may keep.
#[derive(Drop)]
pub struct Session {
    alloc: Global,
    states: usize,
    syntax: Syntax,
    options: Options,
    texts: Vec<Vec<u8>>,
    matchers: Vec<Matcher>,
    files: Vec<KeptFile>,
    marks: Vec<Mark>,
}

impl Model for Session {
    ghost use Rattle.grep_session.specs.Marks.{Watched};

    ghost Value = { Watched };

    ghost use Rattle.grep_session.specs.Working.Sessions.{watched_of, IsSession};

    ghost view = { watched_of };

    ghost invariant = { IsSession };
}

impl Session {
    /// A session with no file, no pattern, basic syntax, and no option. Each added pattern may keep
    /// `states` states.
    pub fn new(alloc: Global, states: usize) -> Session
        requires some { 1 ≤ states }
        requires few { states ≤ most_states }
        ensures { result ≡ new_watched states }
    {
        Session {
            alloc,
            states,
            syntax: Syntax::Basic,
            options: Options::default(),
            texts: Vec::new(alloc),
            matchers: Vec::new(alloc),
            files: Vec::new(alloc),
            marks: Vec::new(alloc),
        }
    }

    /// Removes file `k`; later files move up.
    ///
    /// # Errors
    ///
    /// `EditFault::NoSuchFile`.
    pub fn drop_file(&mut self, k: usize) -> Result<(), EditFault>
        ensures gives { EditGives (DropFile k) self.old.inputs self.new.inputs result }
        ensures same_states { self.new.states ≡ self.old.states }
        ensures marks { MarksGiven (DropFile k) self.old self.new.marks result }
        ensures memory { NeedsNoMemory (DropFile k) self.old.inputs →
            IfErr result (λ fault. fault ≢ Memory) }
    {
        if k >= self.files.len() {
            return Err(EditFault::NoSuchFile);
        }
        self.files.remove(k);
        self.marks.remove(k);
        Ok(())
    }

    /// Adds a file that cannot be opened after the others.
    ///
    /// # Errors
    ///
    /// `EditFault::Memory`.
    pub fn add_missing(&mut self, name: Vec<u8>) -> Result<(), EditFault>
        ensures gives { EditGives (AddMissing name.items) self.old.inputs self.new.inputs result }
        ensures same_states { self.new.states ≡ self.old.states }
        ensures marks { MarksGiven (AddMissing name.items) self.old self.new.marks result }
    {
        let file = KeptFile { name, lines: None };
        match push_file(&mut self.files, &mut self.marks, file) {
            Ok(()) => {}
            Err(_) => return Err(EditFault::Memory),
        }
        Ok(())
    }

    /// Adds a file after the others.
    ///
    /// # Errors
    ///
    /// `EditFault::Memory`.
    pub fn add_file(
        &mut self,
        name: Vec<u8>,
        lines: NewLines,
        meter: &mut Meter,
    ) -> Result<(), EditFault>
        ensures gives { EditGives (AddFile name.items lines) self.old.inputs self.new.inputs result }
        ensures same_states { self.new.states ≡ self.old.states }
        ensures marks { MarksGiven (AddFile name.items lines) self.old self.new.marks result }
        ensures steps { TakesSteps (AddFile name.items lines) self.old.inputs meter.old meter.new }
    {
        let kept = match search_new(self.alloc, &mut self.matchers, &self.options, lines, meter) {
            Ok(kept) => kept,
            Err(_) => return Err(EditFault::Memory),
        };
        let file = KeptFile {
            name,
            lines: Some(kept),
        };
        match push_file(&mut self.files, &mut self.marks, file) {
            Ok(()) => {}
            Err(_) => return Err(EditFault::Memory),
        }
        Ok(())
    }

    /// Replaces `count` lines of file `k` from line `start` on with other lines. Only the new lines
    /// are searched. If there are none, nothing is allocated.
    ///
    /// # Errors
    ///
    /// `EditFault::NoSuchFile`, `EditFault::FileIsMissing`, `EditFault::OutOfRange`, or
    /// `EditFault::Memory`.
    pub fn splice(
        &mut self,
        k: usize,
        start: usize,
        count: usize,
        lines: NewLines,
        meter: &mut Meter,
    ) -> Result<(), EditFault>
        ensures gives { EditGives (Splice k start count lines) self.old.inputs self.new.inputs result }
        ensures same_states { self.new.states ≡ self.old.states }
        ensures marks { MarksGiven (Splice k start count lines) self.old self.new.marks result }
        ensures steps { TakesSteps (Splice k start count lines) self.old.inputs meter.old meter.new }
        ensures memory { NeedsNoMemory (Splice k start count lines) self.old.inputs →
            IfErr result (λ fault. fault ≢ Memory) }
    {
        match find_place(&self.files, k, start, count) {
            Ok(()) => {}
            Err(fault) => return Err(fault),
        }
        let kept = match search_new(self.alloc, &mut self.matchers, &self.options, lines, meter) {
            Ok(kept) => kept,
            Err(_) => return Err(EditFault::Memory),
        };
        match put_in(self.alloc, &mut self.files[k], start, count, &kept) {
            Ok(()) => {}
            Err(_) => return Err(EditFault::Memory),
        }
        let many = self.files[k].line_count();
        touch(&mut self.marks, k, start, count, many);
        Ok(())
    }

    /// Reads all patterns again, with another syntax or other options, and searches all lines anew.
    fn read_again(
        &mut self,
        syntax: Syntax,
        options: Options,
        meter: &mut Meter,
    ) -> Result<(), EditFault>
        ensures gives { ReadsAgain syntax options self.old.inputs self.new.inputs result }
        ensures same_states { self.new.states ≡ self.old.states }
        ensures marks { LosesMarks self.old.marks self.new.marks result }
        ensures steps { (edit : Edit) →
            (AreReadable syntax options self.old.inputs →
            Applies edit self.old.inputs (Ok (read_as syntax options self.old.inputs)))
            → Touches edit self.old.inputs (searched_by (length self.old.inputs.patterns) (all_lines self.old.inputs)) →
            TakesSteps edit self.old.inputs meter.old meter.new }
    {
        let mut matchers = match read_matchers(
            self.alloc,
            &self.texts,
            syntax,
            &options,
            self.states,
        ) {
            Ok(matchers) => matchers,
            Err(fault) => return Err(fault),
        };
        let change = Change::anew(self.matchers.len(), matchers.len());
        match find_columns(
            self.alloc,
            &mut matchers,
            &options,
            change,
            &mut self.files,
            meter,
        ) {
            Ok(()) => {}
            Err(_) => return Err(EditFault::Memory),
        }
        lose_all(&mut self.marks);
        self.matchers = matchers;
        self.syntax = syntax;
        self.options = options;
        Ok(())
    }

    /// Sets the syntax in which the patterns are read.
    ///
    /// # Errors
    ///
    /// `EditFault::Pattern` with the number of the first pattern that is not valid in this syntax,
    /// or `EditFault::Memory`.
    pub fn set_syntax(&mut self, syntax: Syntax, meter: &mut Meter) -> Result<(), EditFault>
        ensures gives { EditGives (SetSyntax syntax) self.old.inputs self.new.inputs result }
        ensures same_states { self.new.states ≡ self.old.states }
        ensures marks { MarksGiven (SetSyntax syntax) self.old self.new.marks result }
        ensures steps { TakesSteps (SetSyntax syntax) self.old.inputs meter.old meter.new }
        ensures memory { NeedsNoMemory (SetSyntax syntax) self.old.inputs →
            IfErr result (λ fault. fault ≢ Memory) }
    {
        if is_same(syntax, self.syntax) {
            return Ok(());
        }
        self.read_again(syntax, self.options, meter)
    }

    /// Searches the parts of all lines, for other options under which the same lines are matched.
    fn part_again(&mut self, options: Options, meter: &mut Meter) -> Result<(), EditFault>
        requires same_whole { options.line_regexp ≡ self.old.inputs.options.line_regexp }
        requires same_case { options.ignore_case ≡ self.old.inputs.options.ignore_case }
        ensures gives { ReadsAgain self.old.inputs.syntax options self.old.inputs self.new.inputs
            result }
        ensures same_states { self.new.states ≡ self.old.states }
        ensures marks { LosesMarks self.old.marks self.new.marks result }
        ensures steps { (edit : Edit) →
            Applies edit self.old.inputs (Ok (read_as self.old.inputs.syntax options self.old.inputs))
            → Touches edit self.old.inputs (parts_alone (all_lines self.old.inputs)) →
            TakesSteps edit self.old.inputs meter.old meter.new }
    {
        match find_columns(
            self.alloc,
            &mut self.matchers,
            &options,
            Change::anew(0, 0),
            &mut self.files,
            meter,
        ) {
            Ok(()) => {}
            Err(_) => return Err(EditFault::Memory),
        }
        lose_all(&mut self.marks);
        self.options = options;
        Ok(())
    }

    /// Sets other options under which the same is kept.
    fn put_options(&mut self, options: Options)
        requires same_whole { options.line_regexp ≡ self.old.inputs.options.line_regexp }
        requires same_case { options.ignore_case ≡ self.old.inputs.options.ignore_case }
        requires no_parts { IsTrue options.only_matching → IsTrue self.old.inputs.options.only_matching }
        ensures inputs { self.new.inputs ≡ read_as self.old.inputs.syntax options self.old.inputs }
        ensures same_states { self.new.states ≡ self.old.states }
        ensures marks { self.new.marks ≡ self.old.marks }
    {
        self.options = options;
    }

    /// Sets an option.
    ///
    /// # Errors
    ///
    /// `EditFault::Pattern` with the number of the first pattern that is too large when both cases
    /// of its letters are alike, by `-i` alone; or `EditFault::Memory`.
    pub fn set_flag(&mut self, flag: Flag, on: bool, meter: &mut Meter) -> Result<(), EditFault>
        ensures gives { EditGives (SetFlag flag on) self.old.inputs self.new.inputs result }
        ensures same_states { self.new.states ≡ self.old.states }
        ensures marks { MarksGiven (SetFlag flag on) self.old self.new.marks result }
        ensures steps { TakesSteps (SetFlag flag on) self.old.inputs meter.old meter.new }
        ensures memory { NeedsNoMemory (SetFlag flag on) self.old.inputs →
            IfErr result (λ fault. fault ≢ Memory) }
    {
        let mut options = self.options;
        if options.get(flag) == on {
            return Ok(());
        }
        options.set(flag, on);
        match effect_of(flag, on) {
            Effect::Verdicts => {
                let syntax = self.syntax;
                self.read_again(syntax, options, meter)
            }
            Effect::Parts => self.part_again(options, meter),
            Effect::Hits => {
                lose_all(&mut self.marks);
                self.put_options(options);
                Ok(())
            }
            Effect::Output => {
                self.put_options(options);
                Ok(())
            }
        }
    }

    /// Sets how many lines are shown around selected ones, or that none are. Nothing is searched or
    /// allocated.
    pub fn set_context(&mut self, context: Option<Context>)
        ensures gives { EditGives {T = Unit {0}} (SetContext context) self.old.inputs
            self.new.inputs (Ok tt) }
        ensures same_states { self.new.states ≡ self.old.states }
        ensures marks { MarksGiven {T = Unit {0}} (SetContext context) self.old self.new.marks
            (Ok tt) }
    {
        let options = Options {
            context,
            ..self.options
        };
        self.put_options(options);
    }

    /// All lines of all files are known to the editor from now on.
    pub fn know_all(&mut self)
        ensures { self.new ≡ all_known self.old }
    {
        know_all(&mut self.marks);
    }

    /// Adds the patterns of a list after the others. Only the new patterns are searched for, and
    /// under `-o` the parts of the lines that one of them matches.
    ///
    /// # Errors
    ///
    /// `EditFault::TooManyPatterns`, `EditFault::Pattern` with the place in the list of the first
    /// text that is not a valid pattern, or `EditFault::Memory`.
    #[tactic(auto, using(crate::proofs::lemmas::StepLemmas::takes_none))]
    pub fn add_patterns(&mut self, list: &[u8], meter: &mut Meter) -> Result<(), EditFault>
        ensures gives { EditGives (AddPatterns list.now) self.old.inputs self.new.inputs result }
        ensures same_states { self.new.states ≡ self.old.states }
        ensures marks { MarksGiven (AddPatterns list.now) self.old self.new.marks result }
        ensures steps { TakesSteps (AddPatterns list.now) self.old.inputs meter.old meter.new }
        ensures memory { NeedsNoMemory (AddPatterns list.now) self.old.inputs →
            IfErr result (λ fault. fault ≢ Memory) }
    {
        if too_many(self.matchers.len(), list) {
            return Err(EditFault::TooManyPatterns);
        }
        let texts = match texts_of(self.alloc, list) {
            Ok(texts) => texts,
            Err(_) => return Err(EditFault::Memory),
        };
        let mut more = match read_matchers(
            self.alloc,
            &texts,
            self.syntax,
            &self.options,
            self.states,
        ) {
            Ok(matchers) => matchers,
            Err(fault) => return Err(fault),
        };
        match self.texts.try_reserve(texts.len()) {
            Ok(()) => {}
            Err(_) => return Err(EditFault::Memory),
        }
        let first = self.matchers.len();
        match self.matchers.append(&mut more) {
            Ok(()) => {}
            Err(_) => return Err(EditFault::Memory),
        }
        let change = Change::new(first, 0, texts.len(), false);
        match find_columns(
            self.alloc,
            &mut self.matchers,
            &self.options,
            change,
            &mut self.files,
            meter,
        ) {
            Ok(()) => {}
            Err(_) => {
                self.matchers.truncate(first);
                return Err(EditFault::Memory);
            }
        }
        add_texts(&mut self.texts, texts);
        lose_all(&mut self.marks);
        Ok(())
    }

    /// Removes pattern `p`; later patterns move up. Under `-o` the lines that it matched are
    /// searched for their parts; otherwise nothing is allocated.
    ///
    /// # Errors
    ///
    /// `EditFault::NoSuchPattern`, or `EditFault::Memory`.
    pub fn drop_pattern(&mut self, p: usize, meter: &mut Meter) -> Result<(), EditFault>
        ensures gives { EditGives (DropPattern p) self.old.inputs self.new.inputs result }
        ensures same_states { self.new.states ≡ self.old.states }
        ensures marks { MarksGiven (DropPattern p) self.old self.new.marks result }
        ensures steps { TakesSteps (DropPattern p) self.old.inputs meter.old meter.new }
        ensures memory { NeedsNoMemory (DropPattern p) self.old.inputs →
            IfErr result (λ fault. fault ≢ Memory) }
    {
        if p >= self.texts.len() {
            return Err(EditFault::NoSuchPattern);
        }
        if !self.options.only_matching {
            drop_column(&mut self.files, p);
            self.matchers.remove(p);
            self.texts.remove(p);
            lose_all(&mut self.marks);
            return Ok(());
        }
        let gone = self.matchers.remove(p);
        let change = Change::new(p, 1, 0, false);
        match find_columns(
            self.alloc,
            &mut self.matchers,
            &self.options,
            change,
            &mut self.files,
            meter,
        ) {
            Ok(()) => {}
            Err(_) => {
                put_back(&mut self.matchers, p, gone);
                return Err(EditFault::Memory);
            }
        }
        self.texts.remove(p);
        lose_all(&mut self.marks);
        Ok(())
    }

    /// Puts another text in the place of pattern `p`. All lines are searched for it alone, and
    /// under `-o` the parts of the lines that the old or the new pattern matches. Where both are
    /// strings, the new one has the old one in it, and `-x` is off, only lines that the old one
    /// matches are searched. Where the text is the same, nothing is searched or allocated. The text
    /// is one pattern, whatever its bytes are: no line has a newline, so nothing matches one in it.
    ///
    /// # Errors
    ///
    /// `EditFault::NoSuchPattern`, `EditFault::Pattern` with place 0 if the text is not a valid
    /// pattern, or `EditFault::Memory`.
    pub fn change_pattern(
        &mut self,
        p: usize,
        text: Vec<u8>,
        meter: &mut Meter,
    ) -> Result<(), EditFault>
        ensures gives { EditGives (ChangePattern p text.items) self.old.inputs self.new.inputs
            result }
        ensures same_states { self.new.states ≡ self.old.states }
        ensures marks { MarksGiven (ChangePattern p text.items) self.old self.new.marks result }
        ensures steps { TakesSteps (ChangePattern p text.items) self.old.inputs meter.old
            meter.new }
        ensures memory { NeedsNoMemory (ChangePattern p text.items) self.old.inputs →
            IfErr result (λ fault. fault ≢ Memory) }
    {
        if p >= self.texts.len() {
            return Err(EditFault::NoSuchPattern);
        }
        if is_text(&self.texts[p], &text) {
            return Ok(());
        }
        let matcher = match read_matcher(
            self.alloc,
            &text,
            self.syntax,
            &self.options,
            self.states,
        ) {
            Ok(matcher) => matcher,
            Err(fault) => return Err(fault),
        };
        let narrower = narrows(self.syntax, &self.options, &self.texts[p], &text);
        let gone = exchange(&mut self.matchers, p, matcher);
        let change = Change::new(p, 1, 1, narrower);
        match find_columns(
            self.alloc,
            &mut self.matchers,
            &self.options,
            change,
            &mut self.files,
            meter,
        ) {
            Ok(()) => {}
            Err(_) => {
                exchange(&mut self.matchers, p, gone);
                return Err(EditFault::Memory);
            }
        }
        self.texts[p] = text;
        lose_all(&mut self.marks);
        Ok(())
    }
}

//! The requests that are made, on one file and views of it.
ghost use Rattle.std.specs.Prelude.{◌≡◌, false, IfOk, IsTrue};
ghost use Rattle.deposited_entries.specs.Deposits.{AreShort};
ghost use Rattle.built_requests.specs.Built.{is_built};
ghost use Rattle.library_model.specs.Ending.{is_end_job};

use commit_level::Level;
use entry_codec::Images;
use field_types::names::Name;
use field_types::texts::{SourceText, Text};
use field_types::values::{Dec, Value};
use library_model::requests::{
    AccessPath, ChainRecord, ChainTo, CreateLogicalFile, CreatePhysicalFile, DisplayJournal, Limit,
    LockOption, OpenFile, OpenName, OpenOption, ReadRecord, Request, SetPosition, StartCommitment,
    StartJournaling, UpdateRecord, WriteRecord,
};
use library_model::sources::{NamedSource, Sources};
use library_model::value_lists::{GivenValues, Values};
use std::alloc::{AllocError, Global};

/// The file: its key is a packed number, and no two records have the same.
const SOURCE: &str = "     A                                      UNIQUE
     A          R BENCHR
     A            NUMBER         9P 0
     A            NAME          20A
     A          K NUMBER
";

/// A view of it: the last number first.
const VIEW: &str = "     A          R BENCHVR                   PFILE(BENCH)
     A          K NUMBER                    DESCEND
";

/// What a view has besides that selects: numbers below one of nine digits, whose last comes behind this. All records are, but no two
/// views with different digits have one path.
const SELECTED: &str = "     A          S NUMBER                    COMP(LT 99999999";

/// No source is longer, in bytes.
const LONGEST_SOURCE: usize = 1_000;

/// The last digits of the views that select.
const DIGITS: &[u8] = b"0123456789";

/// What stands behind the name of the file in the names of a job's opens, but for one that is called as the file is: one fewer than
/// a job may have.
const LETTERS: &[u8] = b"ABCDEFGHIJKLMNOPQRSTUVWXYZ01234";

/// What each record is called, in code page 037: NAME.
const NAME: &[u8] = b"\xD5\xC1\xD4\xC5";

/// A request that the library answers and that doesn't end its job.
#[derive(Drop)]
pub(crate) struct PlainRequest {
    request: Request,
    ghost built: { IsTrue (is_built request) },
    ghost goes_on: { is_end_job request ≡ false },
}

impl PlainRequest {
    /// The request.
    pub(crate) fn as_request(&self) -> &Request
        ensures built { IsTrue (is_built result.now) }
        ensures goes_on { is_end_job result.now ≡ false }
    {
        &self.request
    }
}

/// Makes the requests on the file and its views. Source, file, member, first open and jobs have one name; a view or another open has
/// a letter or digit behind it.
#[derive(Clone, Copy)]
pub(crate) struct Asker {
    alloc: Global,
    name: Name,
    view: Name,
}

impl Asker {
    /// One that has asked for nothing yet.
    pub(crate) fn new(alloc: Global) -> Asker {
        Asker {
            alloc,
            name: Name::from_bytes(b"BENCH").unwrap(),
            view: Name::from_bytes(b"BENCHV").unwrap(),
        }
    }

    /// The memory that requests are made in.
    pub(crate) fn alloc(&self) -> Global {
        self.alloc
    }

    /// The name of the jobs.
    pub(crate) fn job(&self) -> &Name {
        &self.name
    }

    /// The name of the file with a letter or a digit behind it.
    fn lettered(&self, letter: u8) -> Name {
        Name::from_bytes(&[b'B', b'E', b'N', b'C', b'H', letter]).unwrap_or(self.name)
    }

    /// The name of the open at a place among those of a job, counted from 0. The last is called as the file is.
    fn open_id(&self, place: usize) -> Name {
        match LETTERS.get(place) {
            Some(letter) => self.lettered(*letter),
            None => self.name,
        }
    }

    /// The sources of the file and of its views.
    pub(crate) fn sources(&self) -> Result<Sources, AllocError>
        ensures { IfOk result (λ sources. AreShort sources) }
    {
        let mut sources = Sources::new(self.alloc);
        self.add_source(&mut sources, self.name, SOURCE.as_bytes())?;
        self.add_source(&mut sources, self.view, VIEW.as_bytes())?;
        for digit in DIGITS {
            self.add_source(
                &mut sources,
                self.lettered(*digit),
                self.selecting_view(*digit)?.as_slice(),
            )?;
        }
        Ok(sources)
    }

    fn add_source(&self, sources: &mut Sources, name: Name, text: &[u8]) -> Result<(), AllocError>
        ensures { AreShort sources.old → AreShort sources.new }
    {
        if text.len() > LONGEST_SOURCE {
            return Ok(());
        }
        let text = SourceText::from_slice(self.alloc, text)?;
        sources.push(NamedSource { name, text })
    }

    /// The source of a view that selects.
    fn selecting_view(&self, digit: u8) -> Result<Vec<u8>, AllocError> {
        let mut text = Vec::new(self.alloc);
        text.extend_from_slice(VIEW.as_bytes())?;
        text.extend_from_slice(SELECTED.as_bytes())?;
        text.push(digit)?;
        text.extend_from_slice(b")\n")?;
        Ok(text)
    }

    /// CRTPF: makes the file and its member.
    pub(crate) fn create(&self) -> PlainRequest {
        PlainRequest {
            request: Request::CreatePhysicalFile(CreatePhysicalFile {
                file: self.name,
                source: self.name,
            }),
        }
    }

    /// CRTLF: makes the view.
    pub(crate) fn create_view(&self) -> PlainRequest {
        create_logical_file(self.view)
    }

    /// CRTLF: makes the views that select.
    pub(crate) fn create_views(&self) -> Result<Vec<PlainRequest>, AllocError> {
        let mut requests = Vec::new(self.alloc);
        for digit in DIGITS {
            requests.push(create_logical_file(self.lettered(*digit)))?;
        }
        Ok(requests)
    }

    /// STRJRNPF IMAGES(*BOTH): begins to journal the file.
    pub(crate) fn start_journaling(&self) -> PlainRequest {
        PlainRequest {
            request: Request::StartJournaling(StartJournaling {
                file: self.name,
                member: self.name,
                images: Images::Both,
            }),
        }
    }

    /// STRCMTCTL LVL(*ALL): from then on each record that is read under commitment control stays locked.
    pub(crate) fn start_commitment(&self) -> PlainRequest {
        PlainRequest {
            request: Request::StartCommitment(StartCommitment { level: Level::All }),
        }
    }

    /// OPNDBF OPTION(*ALL): opens it in the order of its keys.
    pub(crate) fn open(&self) -> PlainRequest {
        self.open_as(self.name, false)
    }

    /// The same under the name at a place.
    pub(crate) fn open_at(&self, place: usize) -> PlainRequest {
        self.open_as(self.open_id(place), false)
    }

    /// The same under commitment control.
    pub(crate) fn open_to_commit(&self, place: usize) -> PlainRequest {
        self.open_as(self.open_id(place), true)
    }

    fn open_as(&self, open_id: Name, commit: bool) -> PlainRequest {
        PlainRequest {
            request: Request::OpenFile(OpenFile {
                file: self.name,
                option: OpenOption::All,
                member: self.name,
                open_id,
                commit,
                access_path: AccessPath::File,
            }),
        }
    }

    /// SETLL KEY(*LOVAL): the next record is that with the least key.
    pub(crate) fn to_start(&self) -> PlainRequest {
        PlainRequest {
            request: Request::SetLowerLimit(SetPosition {
                open_id: self.name,
                to: Limit::LowValue,
            }),
        }
    }

    /// WRITE: adds a record with a key.
    pub(crate) fn write(&self, key: u64) -> Result<PlainRequest, AllocError> {
        let mut values = GivenValues::new(self.alloc);
        values.push(Some(number(key)))?;
        values.push(Some(Value::Chars(Text::from_slice(self.alloc, NAME)?)))?;
        Ok(PlainRequest {
            request: Request::Write(WriteRecord {
                open_id: self.name,
                format: None,
                record_number: None,
                values,
            }),
        })
    }

    /// READ LCK(*NO): reads the next record.
    pub(crate) fn read(&self) -> PlainRequest {
        PlainRequest {
            request: Request::Read(ReadRecord {
                open_id: self.name,
                lock: LockOption::No,
            }),
        }
    }

    /// CHAIN: reads the record with a key, for update.
    pub(crate) fn chain(&self, key: u64) -> Result<PlainRequest, AllocError> {
        self.chain_through(self.name, key)
    }

    /// The same through the open at a place.
    pub(crate) fn chain_at(&self, place: usize, key: u64) -> Result<PlainRequest, AllocError> {
        self.chain_through(self.open_id(place), key)
    }

    fn chain_through(&self, open_id: Name, key: u64) -> Result<PlainRequest, AllocError> {
        let mut values = Vec::new(self.alloc);
        values.push(number(key))?;
        Ok(PlainRequest {
            request: Request::Chain(ChainRecord {
                open_id,
                to: ChainTo::Key(Values::from_vec(values)),
                lock: LockOption::Default,
            }),
        })
    }

    /// UPDATE: gives the record that was read for update another key, and leaves the rest of it.
    pub(crate) fn update(&self, key: u64) -> Result<PlainRequest, AllocError> {
        let mut values = GivenValues::new(self.alloc);
        values.push(Some(number(key)))?;
        values.push(None)?;
        Ok(PlainRequest {
            request: Request::Update(UpdateRecord {
                open_id: self.name,
                values,
            }),
        })
    }

    /// DSPJRN: shows the journal's entries from a sequence to another.
    pub(crate) fn display(&self, from: u64, to: u64) -> PlainRequest {
        PlainRequest {
            request: Request::DisplayJournal(DisplayJournal { from, to }),
        }
    }

    /// DELETE: deletes the record that was read for update.
    pub(crate) fn delete(&self) -> PlainRequest {
        PlainRequest {
            request: Request::Delete(OpenName { open_id: self.name }),
        }
    }
}

/// CRTLF: makes a view of the source of its name.
fn create_logical_file(name: Name) -> PlainRequest {
    PlainRequest {
        request: Request::CreateLogicalFile(CreateLogicalFile {
            file: name,
            source: name,
        }),
    }
}

fn number(key: u64) -> Value {
    Value::Number(Dec {
        units: i128::from(key),
        scale: 0,
    })
}

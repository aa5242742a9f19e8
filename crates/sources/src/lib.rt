// The texts that a reader starts with, chosen from all that it is lent.
#![tactic(auto)]

ghost use Rattle.std.specs.Prelude.{◌≡◌, ◌∷◌, [], Some, None, if◌then◌else◌, is_some, map};
ghost use Rattle.definition.specs.StartUp.{first_text, second_text};
ghost use Rattle.sources.specs.Lending.{lending, or_empty, is_text, first_source, second_source, first_at, second_at, lies, text_of, as_lent};

// What a reader starts with: document 02 (i). A text that could not be read is `None`.
#[derive(Clone, Copy)]
pub struct StartUp<'a> {
    pub format: u8,
    pub property: &'a [u8],
    pub xresources: Option<&'a [u8]>,
    pub xdefaults: Option<&'a [u8]>,
    // is XENVIRONMENT set?
    pub is_set: bool,
    // the text that it names
    pub xenvironment: Option<&'a [u8]>,
    // the host's .Xdefaults
    pub host: Option<&'a [u8]>,
}

// Where the first text is from.
#[derive(Clone, Copy)]
pub enum FirstSource {
    Property,
    Xresources,
    Xdefaults,
}

// Where the second is from.
#[derive(Clone, Copy)]
pub enum SecondSource {
    Xenvironment,
    Host,
}

// A property is a text if its format is 8 and it is not empty.
fn is_text(format: u8, property: &[u8]) -> bool
    ensures { result ≡ is_text format property.now }
{
    format == 8 && property.len() > 0
}

// Such a property, else .Xresources if it could be read, even if empty, else .Xdefaults.
pub fn first_source(format: u8, property: &[u8], xresources_read: bool) -> FirstSource
    ensures { result ≡ first_source format property.now xresources_read }
{
    if is_text(format, property) {
        return FirstSource::Property;
    }
    if xresources_read {
        return FirstSource::Xresources;
    }
    FirstSource::Xdefaults
}

// The text that XENVIRONMENT names if that is set, else the host's.
pub fn second_source(xenvironment_set: bool) -> SecondSource
    ensures { result ≡ second_source xenvironment_set }
{
    if xenvironment_set {
        return SecondSource::Xenvironment;
    }
    SecondSource::Host
}

// A text that is lent with whether it could be read.
pub fn lent(read: bool, text: &[u8]) -> Option<&[u8]>
    ensures { (result ≡ (if read then Some text.entry else None)) × (text_of result ≡ lending read text.now) }
{
    if read { Some(text) } else { None }
}

impl<'a> StartUp<'a> {
    // The property if it is a text, else .Xresources if it could be read, even if empty, else .Xdefaults.
    fn first_read(self) -> Option<&'a [u8]>
        ensures { (result ≡ first_at (first_source self.entry.format self.entry.property.now (is_some self.entry.xresources)) self.entry) × (text_of result ≡ first_text self.entry.format self.entry.property.now (text_of self.entry.xresources) (text_of self.entry.xdefaults)) }
    {
        match first_source(self.format, self.property, self.xresources.is_some()) {
            FirstSource::Property => Some(self.property),
            FirstSource::Xresources => self.xresources,
            FirstSource::Xdefaults => self.xdefaults,
        }
    }

    // The text that XENVIRONMENT names if that is set, else the host's.
    fn second_read(self) -> Option<&'a [u8]>
        ensures { (result ≡ second_at (second_source self.entry.is_set) self.entry) × (text_of result ≡ second_text self.entry.is_set (text_of self.entry.xenvironment) (text_of self.entry.host)) }
    {
        match second_source(self.is_set) {
            SecondSource::Xenvironment => self.xenvironment,
            SecondSource::Host => self.host,
        }
    }

    // The first text. One that could not be read adds nothing, and goes on as an empty one, which lies where `unread` starts.
    pub fn first_text(self, unread: &'a [u8]) -> &'a [u8]
        ensures { (result.now ≡ or_empty (first_text self.entry.format self.entry.property.now (text_of self.entry.xresources) (text_of self.entry.xdefaults))) × (result.ref_ptr ≡ lies (first_at (first_source self.entry.format self.entry.property.now (is_some self.entry.xresources)) self.entry) unread.entry.ref_ptr) }
    {
        self.first_read().unwrap_or(&unread[..0])
    }

    // The second, likewise.
    pub fn second_text(self, unread: &'a [u8]) -> &'a [u8]
        ensures { (result.now ≡ or_empty (second_text self.entry.is_set (text_of self.entry.xenvironment) (text_of self.entry.host))) × (result.ref_ptr ≡ lies (second_at (second_source self.entry.is_set) self.entry) unread.entry.ref_ptr) }
    {
        self.second_read().unwrap_or(&unread[..0])
    }

    // Both. An empty one for a text that could not be read lies where the property starts.
    pub fn texts(self) -> [&'a [u8]; 2]
        ensures { (map (λ x. x.now) result ≡ or_empty (first_text self.entry.format self.entry.property.now (text_of self.entry.xresources) (text_of self.entry.xdefaults)) ∷ or_empty (second_text self.entry.is_set (text_of self.entry.xenvironment) (text_of self.entry.host)) ∷ []) × (map (λ x. x.ref_ptr) result ≡ lies (first_at (first_source self.entry.format self.entry.property.now (is_some self.entry.xresources)) self.entry) self.entry.property.ref_ptr ∷ lies (second_at (second_source self.entry.is_set) self.entry) self.entry.property.ref_ptr ∷ []) }
    {
        let first = self.first_text(self.property);
        let second = self.second_text(self.property);
        [first, second]
    }
}

//! What follows of the words with a file's entries, whatever the words and the file (profile).
ghost use Rattle.std.specs.Prelude.{◌≡◌, List, [], None, true};
ghost use Rattle.std.specs.List.{All};
ghost use Rattle.option_files.specs.Words.{Entry, Text, names, said, words_beside, words_with};
ghost use Rattle.option_files.specs.Entries.{Gives, is_name};

/// An empty file adds nothing: the words are those that were given.
pub fn an_empty_file_adds_nothing()
    ensures empty { Gives [] [] }
    ensures same { (words : List Text) → words_with words [] ≡ words }
{}

/// What the words say goes first: no word of a file says anything of an option that they name.
pub fn what_the_words_say_goes_first()
    ensures { (text : Text) (entries : List Entry) (words : List Text) (name : Text) → Gives text entries
        → is_name name ≡ true → names name words ≡ true
        → All (λ word. said name word ≡ None) (words_beside words entries) }
{}

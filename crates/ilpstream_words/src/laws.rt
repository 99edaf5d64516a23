//! A law of the arguments of `send`, `receive`, `connector` and `ledger`.

ghost use Rattle.ilpstream_words.specs.Laws.{AdjustmentSaysItsTexts, BooksSayTheirFile, ConnectorSaysItsTexts, ControlSaysItsNames, EndlessSaysNoNumber, FilesSayTheirNames, KeepingNeedsBooks, LedgerSaysItsFile, PaymentSaysItsTexts, ReceiveSaysItsTexts, ReferenceSaysItsTexts, RequestsAreSaidOnce, SendSaysItsTexts};

/// States a law; it does nothing. A command gets the texts after `--to=` and the other options exactly as they are, whatever
/// they are; an option that is left out has its default. `ledger` gets its file, and each name and amount of a payment, also
/// an amount with a minus in front. `connector` is refused with both of `--requests` and `--endless`, with neither, and with
/// `--keep-fulfillments` if it has no books.
pub fn plain_words_say_their_texts()
    ensures send { SendSaysItsTexts }
    ensures files { FilesSayTheirNames }
    ensures receive { ReceiveSaysItsTexts }
    ensures connector { ConnectorSaysItsTexts }
    ensures endless { EndlessSaysNoNumber }
    ensures requests { RequestsAreSaidOnce }
    ensures control { ControlSaysItsNames }
    ensures books { BooksSayTheirFile }
    ensures keeping { KeepingNeedsBooks }
    ensures ledger { LedgerSaysItsFile }
    ensures payment { PaymentSaysItsTexts }
    ensures reference { ReferenceSaysItsTexts }
    ensures adjustment { AdjustmentSaysItsTexts }
{}
